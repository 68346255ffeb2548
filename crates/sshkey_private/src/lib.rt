//! Private keys (OpenSSH, PROTOCOL.key).
//!
//! # What is proved, tested and trusted
//!
//! `checks/private-keys` tests keys that `ssh-keygen` makes, of each type that needs no device,
//! unencrypted and under each cipher. Keys of security keys and under private-use names are tested
//! by hand. Nothing is claimed of whether a ciphertext can be opened, of constant time, or of
//! dropped private bytes.
#![tactic(auto)]

pub mod examples;
mod inner;
pub mod laws;
mod opening;
mod part;
mod private_key;

pub use private_key::PrivateKey;
