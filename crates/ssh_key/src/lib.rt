//! SSH keys, certificates and signatures: the one crate that a user names.
//!
//! It re-exports the crates below it under the module names of the Rust crate `ssh-key`. So do its
//! `specs` with the words of their contracts: `Rattle.sshkey_keys.specs.Keys` is
//! `Rattle.ssh_key.specs.keys.Keys` here, and the type `public::KeyData` is in
//! `Rattle.ssh_key.specs.types.public.KeyData`. Its `proofs` have the rulesets for what callers
//! read and write, as `ssh_key::proofs::Steps::steps`.
#![tactic(auto)]

pub mod addresses;
pub mod authorized_keys;
pub mod certificate;
pub mod encoding;
pub mod known_hosts;
pub mod laws;
pub mod patterns;
pub mod private;
pub mod public;
pub mod revocation;
pub mod terms;

pub use sshkey_authorized_keys::AuthorizedKeys;
pub use sshkey_base::{Algorithm, AlgorithmName, EcdsaCurve, Error, HashAlg, Mpint, Result};
pub use sshkey_cert::Certificate;
pub use sshkey_cert_ref::CertificateRef;
pub use sshkey_ciphers::{Cipher, Kdf, KdfAlg};
pub use sshkey_keys::{
    Fingerprint, Question, RawVerifier, Signature, SignatureQuestion, SigningKey,
};
pub use sshkey_keys_ref::SignatureRef;
pub use sshkey_known_hosts::KnownHosts;
pub use sshkey_private::PrivateKey;
pub use sshkey_public::{Base64Reader, Blob, PublicKey, read_line, write_line};
pub use sshkey_sshsig::SshSig;
