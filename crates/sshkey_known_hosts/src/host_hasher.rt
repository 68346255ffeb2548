//! Who computes HMAC-SHA1.

ghost use Rattle.std.specs.Prelude.{◌≡◌, ℕ, List};

/// HMAC-SHA1 (RFC 2104), by which hashed names are compared. `HmacSha1` computes it, or code of
/// yours.
pub trait HostHasher {
    /// The HMAC of a message under a key: a function of its value, the key and the message.
    ghost hmac: { Self → List ℕ → List ℕ → List ℕ };

    /// The HMAC-SHA1 of the message under the key.
    fn hash(&self, key: &[u8], message: &[u8]) -> [u8; 20]
        ensures { result ≡ hmac self.now key.now message.now };
}
