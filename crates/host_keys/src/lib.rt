//! Whether the key or the certificate that a host shows is the host's, by known_hosts.
//!
//! It names the crates for keys, certificates, known_hosts and revocations, and nothing of private
//! keys, and is proved from their contracts. Copy it and change it.
//!
//! # What is proved, tested and trusted
//!
//! It is proved from public contracts alone, in both directions: a body that always refused, but
//! for `Memory`, would not be. It may answer `Memory` only where known_hosts has a line, or who
//! revokes has to be asked. `checks/callers` compares it with a real ssh. The verifier and the HMAC
//! that it is given are trusted.
#![tactic(auto)]

mod asked;
mod certificate;
mod certified_key;
pub mod examples;
mod held;
mod host_check;
mod key;
mod known_by;
mod refusal;
mod texts;
mod verdict;

pub use certificate::check_certificate;
pub use held::{check_held_certificate, check_held_key};
pub use host_check::HostCheck;
pub use key::check_key;
pub use known_by::KnownBy;
pub use refusal::HostRefusal;
