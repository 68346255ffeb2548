//! SSH signatures of messages and files.
#![tactic(auto)]

pub mod examples;
pub mod laws;
mod sshsig;

pub use sshsig::SshSig;
