//! What SSH names, keys, signatures and certificates are, as mathematics.
#![tactic(auto)]

pub mod examples;
pub mod laws;
