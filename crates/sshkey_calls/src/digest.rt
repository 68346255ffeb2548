//! Digests.

ghost use Rattle.std.specs.List.{list_any};
ghost use Rattle.std.specs.Prelude.{◌≡◌, bytes_eq};

/// A SHA-256 digest, 32 bytes.
#[repr(C)]
#[derive(Clone, Copy, Debug)]
pub struct Sha256Digest {
    /// Its bytes.
    pub bytes: [u8; 32],
}

/// A SHA-512 digest, 64 bytes.
#[repr(C)]
#[derive(Clone, Copy, Debug)]
pub struct Sha512Digest {
    /// Its bytes.
    pub bytes: [u8; 64],
}

/// Whether the bytes are one of the digests. Does not allocate.
pub fn contains_fingerprint(digests: &[Sha256Digest], digest: &[u8]) -> bool
    ensures { result ≡ list_any (λ d. bytes_eq digest.now d.bytes) digests.now }
{
    digests.iter().any(|one| digest == one.bytes.as_slice())
}
