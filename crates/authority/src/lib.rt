//! An authority: what it certifies, until when, under which serial numbers, and what it took back.
//!
//! It names `ssh_key` and `openssh_limits` alone, and is proved from their contracts. Copy both.
//!
//! # What is proved, tested and trusted
//!
//! It is proved from public contracts alone, in both directions. `checks/callers` compares it with
//! OpenSSH. The signer that it is given is trusted.
#![tactic(auto)]

mod authority;
mod certify;
mod keys;
pub mod laws;
mod limits;
mod request;

pub use authority::Authority;
pub use keys::KeyKinds;
pub use limits::Limits;
pub use request::Request;
