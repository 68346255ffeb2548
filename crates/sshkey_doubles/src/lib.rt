//! Verifiers, signers, a generator and a source with a fault, for tests. No cryptography is in
//! them.
//!
//! # What is proved, tested and trusted
//!
//! Nothing is claimed: the checks ask it.
#![tactic(auto)]

mod doubles;
mod faulty;
mod tally;

pub use doubles::{AcceptAll, Count, Fixed, Only, OutOfMemory, RefuseAll};
pub use faulty::Faulty;
pub use tally::Tally;
