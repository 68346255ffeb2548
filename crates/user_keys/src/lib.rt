//! Whether the key or the certificate that a user shows lets them in, by authorized_keys or by a file
//! of principals, and what such a login is bound to.
//!
//! It names the crates for keys, certificates, entries, revocations and addresses, and nothing of
//! private keys, and is proved from their contracts. Copy it and change it.
//!
//! # What is proved, tested and trusted
//!
//! It is proved which line lets in by a key, a certificate or a principal. Take an sshd that takes
//! of a text each line of `Lets` on its terms, and besides only lines of `MayLet`: it is proved
//! that this sshd takes the line first that is taken here, on its terms. The same is proved up to
//! tunnels. It is trusted that sshd is such since 10.5, and before that up to tunnels, which
//! `restrict` left. `checks/user-keys` compares 5,214 questions with OpenSSH's own code.
#![tactic(auto)]

mod answer;
mod certificate;
mod credential;
pub mod examples;
mod filter;
mod first_line;
mod grant;
mod key;
pub mod laws;
mod line;
mod login;
mod marks;
mod merge;
mod names;
mod options;
mod place;
mod policy;
mod principal;
mod principal_line;
mod refusal;
mod skip;
mod text;
mod time;

pub use certificate::{find_authority_line, log_in_by_certificate};
pub use filter::line_may_name_key;
pub use grant::{Certified, NamedLine, UserGrant};
pub use key::{find_key_line, log_in_by_key};
pub use login::UserLogin;
pub use merge::merged;
pub use names::name_listed;
pub use policy::read_certificate;
pub use principal::{find_principal_line, log_in_by_principal};
pub use refusal::{Reason, UserRefusal};
