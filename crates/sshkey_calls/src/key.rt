//! Fingerprints of keys.

ghost use Rattle.std.specs.Prelude.{◌++◌};
ghost use Rattle.base64.specs.Engines.{standard_no_pad};
ghost use Rattle.base64.specs.GeneralPurpose.{encode_of};
ghost use Rattle.sshkey_base.specs.Names.{hash_of};
ghost use Rattle.sshkey_calls.specs.Fingerprints.{FindsFingerprint, Prints};

use crate::number::{DONE, MEMORY, SHORT_BUFFER, error_status};
use base64::engine::general_purpose::STANDARD_NO_PAD;
use sshkey_base::HashAlg;
use sshkey_fingerprints::Fingerprint;
use sshkey_keys_ref::KeyDataRef;
use std::alloc::Global;

/// The fingerprint by that hash of the key that all the bytes spell, or the number to answer with.
pub fn find_fingerprint(alloc: Global, hash_alg: HashAlg, key: &[u8]) -> Result<Fingerprint, u32>
    ensures { FindsFingerprint (hash_of hash_alg) key.now result }
{
    let read = match KeyDataRef::from_bytes(key) {
        Ok(read) => read,
        Err(error) => return Err(error_status(error)),
    };
    let Ok(fingerprint) = read.fingerprint(alloc, hash_alg) else {
        return Err(MEMORY);
    };
    Ok(fingerprint)
}

/// Writes the prefix and the digest, in Base64 without padding, to the front of the room, if there
/// is room for them, and else nothing.
pub fn print(prefix: &str, digest: &[u8], room: &mut [u8]) -> u32
    ensures { Prints (prefix.now ++ encode_of standard_no_pad digest.now)
        result room.old room.new }
{
    let Some((front, rest)) = room.split_at_mut_checked(prefix.len()) else {
        return SHORT_BUFFER;
    };
    let Ok(_) = STANDARD_NO_PAD.encode_slice(digest, rest) else {
        return SHORT_BUFFER;
    };
    front.copy_from_slice(prefix.as_bytes());
    DONE
}
