//! Which kind of pair a pair is.

ghost use Rattle.std.specs.Prelude.{◌≡◌, false, MatchOption};
ghost use Rattle.sshkey_pairs.specs.Keypairs.{is_dsa, is_ecdsa, is_ed25519, is_encrypted, is_rsa, is_sk_ecdsa, is_sk_ed25519, is_opaque};

use super::KeypairData;
use crate::opaque::OpaqueKeypair;
use sshkey_pair_kinds::{
    DsaKeypair, EcdsaKeypair, Ed25519Keypair, RsaKeypair, SkEcdsaSha2NistP256, SkEd25519,
};

impl KeypairData {
    /// Whether it is a DSA pair.
    pub fn is_dsa(&self) -> bool
        ensures { result ≡ is_dsa self.now }
    {
        matches!(self, KeypairData::Dsa(_))
    }

    /// Whether it is an ECDSA pair. That of a security key is not.
    pub fn is_ecdsa(&self) -> bool
        ensures { result ≡ is_ecdsa self.now }
    {
        matches!(self, KeypairData::Ecdsa(_))
    }

    /// Whether it is an Ed25519 pair. That of a security key is not.
    pub fn is_ed25519(&self) -> bool
        ensures { result ≡ is_ed25519 self.now }
    {
        matches!(self, KeypairData::Ed25519(_))
    }

    /// Whether it is encrypted.
    pub fn is_encrypted(&self) -> bool
        ensures { result ≡ is_encrypted self.now }
    {
        matches!(self, KeypairData::Encrypted(_))
    }

    /// Whether it is an RSA pair.
    pub fn is_rsa(&self) -> bool
        ensures { result ≡ is_rsa self.now }
    {
        matches!(self, KeypairData::Rsa(_))
    }

    /// Whether it is a P-256 pair of a security key.
    pub fn is_sk_ecdsa_p256(&self) -> bool
        ensures { result ≡ is_sk_ecdsa self.now }
    {
        matches!(self, KeypairData::SkEcdsaSha2NistP256(_))
    }

    /// Whether it is an Ed25519 pair of a security key.
    pub fn is_sk_ed25519(&self) -> bool
        ensures { result ≡ is_sk_ed25519 self.now }
    {
        matches!(self, KeypairData::SkEd25519(_))
    }

    /// Whether it is a pair under a private-use name.
    pub fn is_other(&self) -> bool
        ensures { result ≡ is_opaque self.now }
    {
        matches!(self, KeypairData::Other(_))
    }

    /// A DSA pair; `None` for a pair of another kind.
    pub fn dsa(&self) -> Option<&DsaKeypair>
        ensures { MatchOption result (is_dsa self.now ≡ false)
            (λ k. self.now ≡ KeypairData.Dsa k.now) }
    {
        match self {
            KeypairData::Dsa(pair) => Some(pair),
            _ => None,
        }
    }

    /// An ECDSA pair; `None` for a pair of another kind.
    pub fn ecdsa(&self) -> Option<&EcdsaKeypair>
        ensures { MatchOption result (is_ecdsa self.now ≡ false)
            (λ k. self.now ≡ KeypairData.Ecdsa k.now) }
    {
        match self {
            KeypairData::Ecdsa(pair) => Some(pair),
            _ => None,
        }
    }

    /// An Ed25519 pair; `None` for a pair of another kind.
    pub fn ed25519(&self) -> Option<&Ed25519Keypair>
        ensures { MatchOption result (is_ed25519 self.now ≡ false)
            (λ k. self.now ≡ KeypairData.Ed25519 k.now) }
    {
        match self {
            KeypairData::Ed25519(pair) => Some(pair),
            _ => None,
        }
    }

    /// The ciphertext of an encrypted pair; `None` for a pair that is not encrypted.
    pub fn encrypted(&self) -> Option<&Vec<u8>>
        ensures { MatchOption result (is_encrypted self.now ≡ false)
            (λ k. self.now ≡ KeypairData.Encrypted k.now) }
    {
        match self {
            KeypairData::Encrypted(pair) => Some(pair),
            _ => None,
        }
    }

    /// An RSA pair; `None` for a pair of another kind.
    pub fn rsa(&self) -> Option<&RsaKeypair>
        ensures { MatchOption result (is_rsa self.now ≡ false)
            (λ k. self.now ≡ KeypairData.Rsa k.now) }
    {
        match self {
            KeypairData::Rsa(pair) => Some(pair),
            _ => None,
        }
    }

    /// A P-256 pair of a security key; `None` for a pair of another kind.
    pub fn sk_ecdsa_p256(&self) -> Option<&SkEcdsaSha2NistP256>
        ensures { MatchOption result (is_sk_ecdsa self.now ≡ false)
            (λ k. self.now ≡ KeypairData.SkEcdsaSha2NistP256 k.now) }
    {
        match self {
            KeypairData::SkEcdsaSha2NistP256(pair) => Some(pair),
            _ => None,
        }
    }

    /// An Ed25519 pair of a security key; `None` for a pair of another kind.
    pub fn sk_ed25519(&self) -> Option<&SkEd25519>
        ensures { MatchOption result (is_sk_ed25519 self.now ≡ false)
            (λ k. self.now ≡ KeypairData.SkEd25519 k.now) }
    {
        match self {
            KeypairData::SkEd25519(pair) => Some(pair),
            _ => None,
        }
    }

    /// A pair under a private-use name; `None` for a pair of another kind.
    pub fn other(&self) -> Option<&OpaqueKeypair>
        ensures { MatchOption result (is_opaque self.now ≡ false)
            (λ k. self.now ≡ KeypairData.Other k.now) }
    {
        match self {
            KeypairData::Other(pair) => Some(pair),
            _ => None,
        }
    }
}
