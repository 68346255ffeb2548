//! A login policy: whom a certificate lets in, and what such a login is bound to.
//!
//! It names the crates for certificates, revocations and addresses, and nothing of private keys, and
//! is proved from their contracts. Copy it and change it.
//!
//! # What is proved, tested and trusted
//!
//! It is proved from public contracts alone, in both directions: a body that always refused, but
//! for `Memory`, would not be. `log_in` may answer `Memory` only for what is read, or long, or made
//! by a given authority. `checks/callers` and `checks/newer` compare it with OpenSSH, with
//! signatures that another library verifies. The verifier that it is given is trusted.
#![tactic(auto)]

mod authority;
mod client;
pub mod examples;
mod grant;
mod key;
pub mod laws;
mod login;
mod options;
mod pending_login;
mod principals;
mod refusal;

pub use client::Client;
pub use grant::Grant;
pub use login::{Login, log_in, pending, pending_of};
pub use pending_login::Pending;
pub use refusal::LoginRefusal;
