//! Public keys and signatures of any kind, and the traits of those who verify and who sign.
#![tactic(auto)]

mod key_data;
pub mod laws;
mod question;
mod raw_verifier;
mod security_key;
mod signature;
mod signature_question;
mod signing_key;
mod verify;

pub use key_data::KeyData;
pub use question::Question;
pub use raw_verifier::RawVerifier;
pub use security_key::security_key_message;
pub use signature::{Signature, check_string, has_trailer, split_trailer};
pub use signature_question::SignatureQuestion;
pub use signing_key::SigningKey;
pub use sshkey_fingerprints::Fingerprint;
