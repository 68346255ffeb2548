//! Public keys.

pub use sshkey_keys::KeyData;
pub use sshkey_keys_ref::{KeyDataRef, take_body};
pub use sshkey_kinds::{
    DsaPublicKey, EcPoint, EcdsaNistP256PublicKey, EcdsaNistP384PublicKey, EcdsaNistP521PublicKey,
    EcdsaPublicKey, Ed25519PublicKey, OpaquePublicKey, OpaquePublicKeyBytes, RsaPublicKey,
    SkEcdsaSha2NistP256, SkEd25519,
};
pub use sshkey_public::PublicKey;
