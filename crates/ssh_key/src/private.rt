//! Private keys, and the pairs that they hold.

pub use sshkey_pair_kinds::{
    DsaKeypair, DsaPrivateKey, EcdsaKeypair, EcdsaPrivateKey, Ed25519Keypair, Ed25519PrivateKey,
    RsaKeypair, RsaPrivateKey, SkEcdsaSha2NistP256, SkEd25519,
};
pub use sshkey_pairs::{KeypairData, OpaqueKeypair, OpaqueKeypairBytes, OpaquePrivateKeyBytes};
pub use sshkey_private::PrivateKey;
pub use sshkey_sshsig::SshSig;
