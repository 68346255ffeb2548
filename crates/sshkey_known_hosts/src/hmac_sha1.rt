//! HMAC-SHA1, over the crate sha1.

ghost use Rattle.std.specs.Prelude.{◌≡◌};
ghost use Rattle.sha1.specs.Sha1.{Holds};
ghost use Rattle.sshkey_known_hosts.specs.Hmac.{hmac_of_block, hmac_sha1, masked};

use crate::host_hasher::HostHasher;
use sha1::Sha1;

/// HMAC-SHA1 (RFC 2104), computed over the crate sha1.
#[derive(Clone, Copy, Debug)]
pub struct HmacSha1;

/// The digest of the key under the mask, as far as it goes.
fn begun(key: &[u8], mask: u8) -> Sha1
    ensures { Holds result (masked key.now mask) }
{
    let mut block = [mask; 64];
    for place in 0..key.len().min(64) {
        block[place] = key[place] ^ mask;
    }
    let mut hasher = Sha1::new();
    hasher.update(&block);
    hasher
}

/// The HMAC under a key of at most 64 bytes.
fn hash_block(key: &[u8], message: &[u8]) -> [u8; 20]
    ensures { result ≡ hmac_of_block key.now message.now }
{
    let mut inner = begun(key, 0x36);
    inner.update(message);
    let digest = inner.finalize();
    let mut outer = begun(key, 0x5c);
    outer.update(&digest);
    outer.finalize()
}

impl HostHasher for HmacSha1 {
    ghost hmac = { λ _ key message. hmac_sha1 key message };

    fn hash(&self, key: &[u8], message: &[u8]) -> [u8; 20] {
        if key.len() > 64 {
            let digest = Sha1::digest(key);
            return hash_block(&digest, message);
        }
        hash_block(key, message)
    }
}
