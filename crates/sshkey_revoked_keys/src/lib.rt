//! Revocation files as sshd(8), ssh(1) and ssh-keygen(1) read them: key revocation lists, or texts
//! with a key or a certificate a line (sshd_config(5), RevokedKeys).
//!
//! # What is proved, tested and trusted
//!
//! It is proved which files are read, and what each revokes. `checks/revoked` compares 226 texts
//! with what `ssh-keygen -Y verify -r` says of a key, its certificate and another key.
#![tactic(auto)]

pub mod examples;
mod later_key;
pub mod laws;
mod line;
mod named_word;
mod revoked_keys;

pub use revoked_keys::RevokedKeys;
