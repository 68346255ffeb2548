//! HMAC-SHA1 without arithmetic: it is told what another program computed.

ghost use Rattle.std.specs.Prelude.{◌≡◌};
ghost use Rattle.callers.specs.Answers.{hash_among, is_hash_of};

use crate::words::{NO_LINE, bytes};
use ssh_key::Result;
use ssh_key::known_hosts::HostHasher;
use std::alloc::Global;

/// The HMAC-SHA1 of a name under a salt.
#[derive(Debug, Drop)]
pub(crate) struct Hashed {
    /// The salt.
    pub salt: Vec<u8>,
    /// The name.
    pub name: Vec<u8>,
    /// The hash.
    pub hash: [u8; 20],
}

/// Knows the hashes that it was told of. Of all others it says zeros.
#[derive(Debug, Drop)]
pub(crate) struct Hashes(Vec<Hashed>);

impl Hashes {
    /// One that was told of none. Takes no memory.
    pub(crate) fn new(alloc: Global) -> Hashes {
        Hashes(Vec::new(alloc))
    }

    /// Tells of one more. Refused only when out of memory.
    pub(crate) fn add(&mut self, hashed: Hashed) -> Result<()> {
        Ok(self.0.push(hashed)?)
    }
}

impl HostHasher for Hashes {
    ghost hmac = { λ hashes salt name. hash_among salt name hashes.0.items };

    fn hash(&self, key: &[u8], message: &[u8]) -> [u8; 20] {
        hash_among(&self.0, key, message)
    }
}

/// The hash of the name under the salt that is told first.
fn hash_among(hashes: &[Hashed], salt: &[u8], name: &[u8]) -> [u8; 20]
    ensures { result ≡ hash_among salt.now name.now hashes.now }
{
    for hashed in hashes {
        if hashed.is_of(salt, name) {
            return hashed.hash;
        }
    }
    [0; 20]
}

impl Hashed {
    fn is_of(&self, salt: &[u8], name: &[u8]) -> bool
        ensures { result ≡ is_hash_of salt.now name.now self.now }
    {
        self.salt.as_slice() == salt && self.name.as_slice() == name
    }
}

/// What a line tells: a salt, a name and the hash, in hexadecimal digits.
pub(crate) fn read_hashed(alloc: Global, words: &[&str]) -> Result<Hashed> {
    let [salt, name, hash] = words else {
        return Err(NO_LINE);
    };
    let Ok(hash) = <[u8; 20]>::try_from(bytes(alloc, hash)?.as_slice()) else {
        return Err(NO_LINE);
    };
    Ok(Hashed {
        salt: bytes(alloc, salt)?,
        name: bytes(alloc, name)?,
        hash,
    })
}
