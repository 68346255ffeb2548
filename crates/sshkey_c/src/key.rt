//! Fingerprints of keys.

ghost use Rattle.sshkey_model.specs.Fingerprints.{digest_text};
ghost use Rattle.sshkey_model.specs.Names.{Sha256};
ghost use Rattle.sshkey_calls.specs.Fingerprints.{GivesKeyDigest, Prints};

use sshkey_base::HashAlg;
use sshkey_calls::Sha256Digest;
use sshkey_calls::key::{find_fingerprint, print};
use sshkey_calls::number::DONE;
use std::alloc::Global;

/// The SHA-256 fingerprint of the key that all the bytes spell, as `raf_check_certificate` takes
/// it: the digest of the key's normal form.
///
/// Returns 0 if they spell one, 1 if memory ran out, and else from 10 to 29 their fault. Memory is
/// taken only for an RSA key under another name than `ssh-rsa`. With any number but 0 the answer
/// stays as it was.
#[unsafe(no_mangle)]
pub extern "C" fn raf_fingerprint(alloc: Global, key: &[u8], answer: &mut Sha256Digest) -> u32
    ensures { GivesKeyDigest Sha256 key.now result answer.old.bytes answer.new.bytes }
{
    let fingerprint = match find_fingerprint(alloc, HashAlg::Sha256, key) {
        Ok(fingerprint) => fingerprint,
        Err(number) => return number,
    };
    match fingerprint.sha256() {
        Some(bytes) => {
            answer.bytes = bytes;
            DONE
        }
        None => unreachable!(),
    }
}

/// Writes the text of the SHA-256 fingerprint with that digest to the front of the room, as
/// ssh-keygen(1) shows it: `SHA256:` and 43 characters, 50 bytes.
///
/// Returns 0, or 2 where the room is shorter and stays as it was.
#[unsafe(no_mangle)]
pub extern "C" fn raf_fingerprint_text(digest: &Sha256Digest, room: &mut [u8]) -> u32
    ensures { Prints (digest_text Sha256 digest.now.bytes) result room.old room.new }
{
    print("SHA256:", &digest.bytes, room)
}
