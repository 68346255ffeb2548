//! Allowed signers: may this key sign for that identity?
//!
//! `ssh-keygen -Y verify` as a library: a file of allowed signers, a message and a signature in, a
//! yes or a refusal out (ssh-keygen(1), ALLOWED SIGNERS). It names neither private keys nor what
//! makes certificates, so that the library for C has none.
//!
//! # What is proved, tested and trusted
//!
//! It is proved from public contracts alone, in both directions: a body that always refused, but
//! for `Memory`, would not be. `checks/callers` compares it with `ssh-keygen -Y verify`, with
//! signatures that another library verifies. The verifier that it is given is trusted.
#![tactic(auto)]

pub mod examples;
mod line;
mod options;
mod signers;

pub use signers::{SignerRefusal, verify};
