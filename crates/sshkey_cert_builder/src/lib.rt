//! How certificates are made (PROTOCOL.certkeys).
//!
//! # What is proved, tested and trusted
//!
//! Nothing is claimed of whether nonces are unpredictable or serial numbers differ.
#![tactic(auto)]

mod builder;

pub use builder::Builder;
