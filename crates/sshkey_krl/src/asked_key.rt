//! A key that a list is asked about.

ghost use Rattle.std.specs.Option.{ForSome};
ghost use Rattle.std.specs.Prelude.{◌≡◌, bytes_eq};
ghost use Rattle.sha1.specs.Sha1.{sha1};
ghost use Rattle.sha2.specs.Sha256.{sha256};

use sha1::Sha1;
use sha2::{Digest, Sha256};

/// The digests of a key.
#[derive(Clone, Copy)]
pub(crate) struct Digests {
    pub by_sha1: [u8; 20],
    pub by_sha256: [u8; 32],
}

/// The normal form of a key, and its digests if a list asked for them.
#[derive(Clone, Copy)]
pub(crate) struct Key<'q> {
    pub bytes: &'q [u8],
    kept: Option<Digests>,
    pub ghost kept_is: { ForSome kept
        (λ d. (d.by_sha1 ≡ sha1 bytes.now) × (d.by_sha256 ≡ sha256 bytes.now)) },
}

impl<'q> Key<'q> {
    /// The key of those bytes.
    pub(crate) fn new(bytes: &'q [u8]) -> Key<'q>
        ensures { result.bytes.now ≡ bytes.now }
    {
        Key { bytes, kept: None }
    }

    /// The same, with its digests kept.
    pub(crate) fn with_digests(&self) -> Key<'q>
        ensures { result.bytes.now ≡ self.now.bytes.now }
    {
        if self.kept.is_some() {
            return *self;
        }
        Key {
            bytes: self.bytes,
            kept: Some(Digests {
                by_sha1: Sha1::digest(self.bytes),
                by_sha256: Sha256::digest(self.bytes),
            }),
        }
    }

    /// Whether it is the key's digest by SHA-1, which is made unless it is kept.
    pub(crate) fn has_sha1(&self, digest: &[u8]) -> bool
        ensures { result ≡ bytes_eq (sha1 self.now.bytes.now) digest.now }
    {
        match &self.kept {
            Some(kept) => kept.by_sha1.as_slice() == digest,
            None => Sha1::digest(self.bytes).as_slice() == digest,
        }
    }

    /// Whether it is the key's digest by SHA-256, which is made unless it is kept.
    pub(crate) fn has_sha256(&self, digest: &[u8]) -> bool
        ensures { result ≡ bytes_eq (sha256 self.now.bytes.now) digest.now }
    {
        match &self.kept {
            Some(kept) => kept.by_sha256.as_slice() == digest,
            None => Sha256::digest(self.bytes).as_slice() == digest,
        }
    }
}
