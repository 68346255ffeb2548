//! Who logs in by public key: what sshd(8) asks of its method publickey, in its order, the client's
//! signature included (RFC 4252, section 7).
//!
//! # What is proved, tested and trusted
//!
//! It is proved that `log_in` grants exactly if a source lets in, in the order of its definitions
//! and on the terms of that source, and if the verifier says yes. The verifier is asked about the
//! authority's signature and the client's, which is over the bytes of this request, under the key
//! that is let in.
//!
//! That session identifier and host key are the server's own is for the caller to see to, and so is
//! that a transport verified what its caller says. `checks/publickey` compares the definitions with
//! OpenSSH's own code and with a real sshd.
#![tactic(auto)]

pub mod examples;
mod grant;
mod held;
pub mod laws;
mod login;
mod offer;
mod pending_login;
mod place;
mod refusal;
mod request;
#[cfg(test)]
mod samples;
mod search;
mod signed;
mod sources;
#[cfg(test)]
mod tests;
mod trusted;

pub use grant::{PublickeyGrant, Source};
pub use login::{log_in, may_offer, pending};
pub use offer::Offer;
pub use pending_login::{Answers, Pending};
pub use place::{Place, client_known};
pub use refusal::PublickeyRefusal;
pub use signed::{Signed, client_question};
pub use trusted::{Principals, Text, Trusted};
