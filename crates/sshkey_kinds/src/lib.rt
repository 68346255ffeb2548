//! The kinds of public keys, and the points that they are made of.
#![tactic(auto)]

mod dsa;
mod ec_point;
mod ecdsa;
mod ed25519;
pub mod laws;
mod opaque;
mod point_string;
mod rsa;
mod sk;

pub use dsa::DsaPublicKey;
pub use ec_point::{
    EcPoint, EcdsaNistP256PublicKey, EcdsaNistP384PublicKey, EcdsaNistP521PublicKey,
    P256_POINT_LEN, P521_POINT_LEN,
};
pub use ecdsa::EcdsaPublicKey;
pub use ed25519::Ed25519PublicKey;
pub use opaque::{OpaquePublicKey, OpaquePublicKeyBytes};
pub use rsa::RsaPublicKey;
pub use sk::{SkEcdsaSha2NistP256, SkEd25519};
