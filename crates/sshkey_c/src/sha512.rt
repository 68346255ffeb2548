//! SHA-512 fingerprints of keys.

ghost use Rattle.sshkey_model.specs.Fingerprints.{digest_text};
ghost use Rattle.sshkey_model.specs.Names.{Sha512};
ghost use Rattle.sshkey_calls.specs.Fingerprints.{GivesKeyDigest, Prints};

use sshkey_base::HashAlg;
use sshkey_calls::Sha512Digest;
use sshkey_calls::key::{find_fingerprint, print};
use sshkey_calls::number::DONE;
use std::alloc::Global;

/// The SHA-512 fingerprint of the key that all the bytes spell: the digest of the key's normal
/// form.
///
/// Returns what `raf_fingerprint` does.
#[unsafe(no_mangle)]
pub extern "C" fn raf_fingerprint_sha512(
    alloc: Global,
    key: &[u8],
    answer: &mut Sha512Digest,
) -> u32
    ensures { GivesKeyDigest Sha512 key.now result answer.old.bytes answer.new.bytes }
{
    let fingerprint = match find_fingerprint(alloc, HashAlg::Sha512, key) {
        Ok(fingerprint) => fingerprint,
        Err(number) => return number,
    };
    match fingerprint.sha512() {
        Some(bytes) => {
            answer.bytes = bytes;
            DONE
        }
        None => unreachable!(),
    }
}

/// Writes the text of the SHA-512 fingerprint with that digest to the front of the room, as
/// ssh-keygen(1) shows it: `SHA512:` and 86 characters, 93 bytes.
///
/// Returns what `raf_fingerprint_text` does.
#[unsafe(no_mangle)]
pub extern "C" fn raf_fingerprint_sha512_text(digest: &Sha512Digest, room: &mut [u8]) -> u32
    ensures { Prints (digest_text Sha512 digest.now.bytes) result room.old room.new }
{
    print("SHA512:", &digest.bytes, room)
}
