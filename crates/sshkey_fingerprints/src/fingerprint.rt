//! Fingerprints of public keys.

ghost use Rattle.std.specs.Prelude.{◌≡◌, ◌↔◌, ◌++◌, IfErr, IfOk, IsOk, IsTrue, MatchOption, Some, codes, string_bytes};
ghost use Rattle.sshkey_base.specs.Names.{hash_of};
ghost use Rattle.sshkey_model.specs.Fingerprints.{digest, fingerprint_prefix};
ghost use Rattle.sshkey_model.specs.Names as model;
ghost use Rattle.sshkey_fingerprints.specs.Fingerprints.{fingerprint_hash, digest_of, shown, AreShort, GivesDigest};

mod picture;
mod text;

use base64::display::Base64Display;
use base64::engine::general_purpose::STANDARD_NO_PAD;
use sha2::{Digest, Sha256, Sha512};
use sshkey_base::{Encode, Error, HashAlg, Result, SliceWriter, encode_vec};
use std::alloc::Global;
use std::convert::AsSlice;
use std::fmt;

/// The digest of a public key's normal form, whatever bytes the key was read from.
///
/// It is shown as `SHA256:` and 43, or `SHA512:` and 86 characters of Base64 without padding.
/// Fingerprints are ordered by their hash, SHA-256 first, and then by the digest's bytes.
///
/// ```rust
/// // as in crates/sshkey_cases/src/keys.rt
/// Ok(key.fingerprint(alloc, HashAlg::Sha256)?.to_string(alloc)?)
/// ```
#[derive(Debug, Clone, Copy, PartialEq, Eq, PartialOrd, Ord)]
pub enum Fingerprint {
    /// A digest by SHA-256.
    Sha256([u8; 32]),
    /// A digest by SHA-512.
    Sha512([u8; 64]),
}

/// Keys of at most this many bytes, all but RSA and DSA keys in use today, are digested in place.
const SHORT_KEY_LEN: usize = 256;

impl Fingerprint {
    /// The digest by that hash of the key's normal form, which is what it writes.
    ///
    /// Fails with `Length` exactly if a part of the key is longer than 2^32 - 1 bytes, and
    /// otherwise only when out of memory. A key of at most 256 bytes is never rejected.
    pub fn new<K: Encode>(alloc: Global, hash_alg: HashAlg, key: &K) -> Result<Fingerprint>
        ensures gives { GivesDigest (hash_of hash_alg) (K.normal key.now) result }
        ensures short { AreShort (K.normal key.now) → IsOk result }
    {
        let mut room = [0u8; SHORT_KEY_LEN];
        let mut writer = SliceWriter::new(&mut room);
        if let Ok(()) = key.encode(&mut writer) {
            return Ok(Fingerprint::of_bytes(hash_alg, writer.written()));
        }
        let bytes = encode_vec(alloc, key)?;
        Ok(Fingerprint::of_bytes(hash_alg, bytes.as_slice()))
    }

    /// The digest of the bytes by that hash: where they are a key's normal form, its fingerprint.
    /// Does not allocate.
    pub fn of_bytes(hash_alg: HashAlg, bytes: &[u8]) -> Fingerprint
        ensures by { fingerprint_hash result ≡ hash_of hash_alg }
        ensures digest { digest_of result ≡ digest (hash_of hash_alg) bytes.now }
    {
        match hash_alg {
            HashAlg::Sha256 => Fingerprint::Sha256(Sha256::digest(bytes)),
            HashAlg::Sha512 => Fingerprint::Sha512(Sha512::digest(bytes)),
        }
    }

    /// The hash.
    pub fn algorithm(self) -> HashAlg
        ensures { hash_of result ≡ fingerprint_hash self }
    {
        match self {
            Fingerprint::Sha256(_) => HashAlg::Sha256,
            Fingerprint::Sha512(_) => HashAlg::Sha512,
        }
    }

    /// What stands before the colon where the fingerprint is shown: `SHA256` or `SHA512`.
    pub fn prefix(self) -> &'static str
        ensures { result.now ++ codes ":" ≡ fingerprint_prefix (fingerprint_hash self) }
    {
        match self {
            Fingerprint::Sha256(_) => "SHA256",
            Fingerprint::Sha512(_) => "SHA512",
        }
    }

    /// The digest, of 32 or 64 bytes.
    pub fn as_bytes(&self) -> &[u8]
        ensures { result.now ≡ digest_of self.now }
    {
        match self {
            Fingerprint::Sha256(digest) => digest,
            Fingerprint::Sha512(digest) => digest,
        }
    }

    /// The digest by SHA-256; `None` where it is by SHA-512.
    pub fn sha256(self) -> Option<[u8; 32]>
        ensures { MatchOption result (fingerprint_hash self ≡ model.Sha512)
            (λ d. self ≡ Fingerprint.Sha256 d) }
    {
        match self {
            Fingerprint::Sha256(digest) => Some(digest),
            Fingerprint::Sha512(_) => None,
        }
    }

    /// The digest by SHA-512; `None` where it is by SHA-256.
    pub fn sha512(self) -> Option<[u8; 64]>
        ensures { MatchOption result (fingerprint_hash self ≡ model.Sha256)
            (λ d. self ≡ Fingerprint.Sha512 d) }
    {
        match self {
            Fingerprint::Sha256(_) => None,
            Fingerprint::Sha512(digest) => Some(digest),
        }
    }

    /// The text that is shown, in a string of its size. Fails only when out of memory.
    pub fn to_string(&self, alloc: Global) -> Result<String>
        ensures text { IfOk result (λ text. string_bytes text ≡ shown self.now) }
        ensures refused { IfErr result (λ e. e ≡ Error.Memory) }
    {
        let len = match self {
            Fingerprint::Sha256(_) => 50,
            Fingerprint::Sha512(_) => 93,
        };
        let mut text = String::with_capacity(alloc, len)?;
        text.push_str(self.prefix())?;
        text.push_str(":")?;
        STANDARD_NO_PAD.encode_string(self.as_bytes(), &mut text)?;
        Ok(text)
    }

    /// Whether the hash is SHA-256.
    pub fn is_sha256(self) -> bool
        ensures { IsTrue result ↔ (fingerprint_hash self ≡ model.Sha256) }
    {
        matches!(self, Fingerprint::Sha256(_))
    }

    /// Whether the hash is SHA-512.
    pub fn is_sha512(self) -> bool
        ensures { IsTrue result ↔ (fingerprint_hash self ≡ model.Sha512) }
    {
        matches!(self, Fingerprint::Sha512(_))
    }
}

/// The digest.
impl AsSlice<u8> for Fingerprint {
    ghost items = { digest_of };

    fn as_slice(&self) -> &[u8] {
        self.as_bytes()
    }
}

impl fmt::Display for Fingerprint {
    ghost output = { λ fingerprint. Some (shown fingerprint) };

    fn fmt<W: fmt::Write>(&self, f: &mut fmt::Formatter<W>) -> fmt::Result {
        match self {
            Fingerprint::Sha256(digest) => {
                write!(f, "SHA256:{}", Base64Display::new(digest, &STANDARD_NO_PAD))
            }
            Fingerprint::Sha512(digest) => {
                write!(f, "SHA512:{}", Base64Display::new(digest, &STANDARD_NO_PAD))
            }
        }
    }
}
