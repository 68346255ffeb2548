//! Lines of files of authorities: keys that may sign certificates.

ghost use Rattle.std.specs.List.{list_any, slice_split};
ghost use Rattle.std.specs.Prelude.{◌≡◌, ◌≢◌, ◌<◌, bytes_eq};
ghost use Rattle.sshkey_base.specs.Causes.{NoMemory, cause};
ghost use Rattle.sshkey_entries.specs.Items.{is_comma};
ghost use Rattle.sshkey_entries.specs.OtherKeys.{AreOtherKeyFields};
ghost use Rattle.sshkey_keys.specs.Keys.{key_of};
ghost use Rattle.sshkey_model.specs.Names.{Sha256};
ghost use Rattle.sshkey_calls.specs.Fingerprints.{GivesDigestOf};
ghost use Rattle.sshkey_calls.specs.Numbers.{error_status};
ghost use Rattle.sshkey_entry_calls.specs.Authorities.{BeginsWithFields, TellsFields, has_user};

use sshkey_base::{Error, HashAlg};
use sshkey_calls::Sha256Digest;
use sshkey_calls::number::{DONE, MEMORY, error_status};
use sshkey_entries::bytes::{skip_blanks, split_blank, split_word};
use sshkey_entries::{are_other_key_fields, read_key_fields};
use sshkey_keys::KeyData;
use std::alloc::Global;

/// A line has a key of a later kind.
const LATER_KEY: u32 = 61;

/// The first two fields of a line, as they stand in it.
pub fn key_fields(line: &[u8]) -> &[u8]
    ensures { BeginsWithFields line.now result.now }
{
    let (_, after_name) = split_blank(line);
    let (_, rest) = split_word(skip_blanks(after_name));
    &line[..line.len() - rest.len()]
}

/// Answers with the key of two fields.
pub fn tell_fields(alloc: Global, fields: &str, answer: &mut Sha256Digest) -> u32
    ensures { TellsFields fields.now result answer.old.bytes answer.new.bytes }
{
    match read_key_fields(alloc, fields) {
        Ok(key) => tell_digest(alloc, key.key_data(), answer),
        Err(error) => no_key_status(error, fields),
    }
}

/// Answers with the digest of a key's fingerprint.
fn tell_digest(alloc: Global, key: &KeyData, answer: &mut Sha256Digest) -> u32
    ensures digest { result ≡ 0 → GivesDigestOf Sha256 (key_of key.now) answer.new.bytes }
    ensures memory { result ≢ 0 → (result ≡ 1) × (answer.new.bytes ≡ answer.old.bytes) }
{
    let Ok(fingerprint) = key.fingerprint(alloc, HashAlg::Sha256) else {
        return MEMORY;
    };
    match fingerprint.sha256() {
        Some(bytes) => {
            answer.bytes = bytes;
            DONE
        }
        None => unreachable!(),
    }
}

/// The number of fields that are no key's, with that error.
fn no_key_status(error: Error, fields: &str) -> u32
    ensures memory { cause error ≡ NoMemory → result ≡ 1 }
    ensures later { result ≡ 61 → AreOtherKeyFields fields.now }
    ensures fault { cause error ≢ NoMemory → result ≢ 61 →
        (AreOtherKeyFields fields.now → ⊥) × (result ≡ error_status error) }
    ensures some { result ≢ 0 }
    ensures range { cause error ≢ NoMemory → 9 < result }
{
    if !error.is_memory() && are_other_key_fields(fields) {
        return LATER_KEY;
    }
    error_status(error)
}

/// Whether the user is one of the names of a list.
pub fn has_user(list: &[u8], user: &[u8]) -> bool
    ensures { result ≡ has_user list.now user.now }
{
    !user.is_empty() && is_listed(list, user)
}

/// Whether that is one of the names of a list.
fn is_listed(list: &[u8], user: &[u8]) -> bool
    ensures { result ≡ list_any (λ name. bytes_eq name user.now) (slice_split is_comma list.now) }
{
    list.split(|byte| *byte == b',').any(|name| name == user)
}
