//! Fingerprints of public keys.
#![tactic(auto)]

pub mod examples;
mod fingerprint;
pub mod laws;
mod random_art;

pub use fingerprint::Fingerprint;
