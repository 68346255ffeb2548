//! Key pairs of each kind, those of security keys among them.
#![tactic(auto)]

mod dsa;
mod ecdsa;
mod ed25519;
mod held;
pub mod laws;
mod rsa;
mod sk_keypair;

pub use dsa::{DsaKeypair, DsaPrivateKey};
pub use ecdsa::{EcdsaKeypair, EcdsaPrivateKey};
pub use ed25519::{Ed25519Keypair, Ed25519PrivateKey};
pub use rsa::{RsaKeypair, RsaPrivateKey};
pub use sk_keypair::{SkEcdsaSha2NistP256, SkEd25519};
