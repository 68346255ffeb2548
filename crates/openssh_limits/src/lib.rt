//! What OpenSSH does not read of keys and certificates that `ssh_key` reads, for callers that are to
//! accept nothing that OpenSSH refuses; and RSA signatures that are shorter than the modulus, which
//! it verifies with zeros in front.
//!
//! # What is proved, tested and trusted
//!
//! It is proved that its tests are `true` exactly for what it defines. `checks/callers` and
//! `checks/revoked` test that OpenSSH reads just that as it is, and lets in by no more.
//!
//! It is proved with which zeros in front a verifier is asked about an RSA signature, and that it
//! is asked about all else as it is. `checks/callers` tests that a real sshd lets in by a
//! certificate whose signature lacks its zero, and by none with one more.
#![tactic(auto)]

mod application;
pub mod examples;
mod key;
mod number;
mod padding;
mod texts;

pub use application::openssh_reads_application;
pub use key::{LEAST_RSA_BITS, is_read_key_ref, openssh_accepts_key, openssh_reads_key};
pub use padding::{Padding, padded_signature};
pub use texts::{openssh_reads_principals, openssh_reads_text};
