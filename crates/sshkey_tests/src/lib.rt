//! The tests of the crates below that are no lines of the table in `sshkey_cases`.
//!
//! # What is proved, tested and trusted
//!
//! Nothing is claimed: the checks run it.
#![tactic(auto)]

#[cfg(test)]
mod tests;
