//! Whether a key is a host's.

ghost use Rattle.std.specs.Prelude.{◌≡◌, true, length};
ghost use Rattle.sshkey_keys_ref.specs.Keys.{key_bytes};
ghost use Rattle.sshkey_model.specs.Keys.{Key, SpellsKey};
ghost use Rattle.host_keys.specs.Hosts.{lines_of};
ghost use Rattle.sshkey_known_hosts.specs.HeldLines.{ArePlacesOf, total_length};
ghost use Rattle.sshkey_entry_calls.specs.Hosts.{TellsKey, are_texts, held_lines};

use crate::host_answer::answer_status;
use crate::host_request::HostRequest;
use crate::revocation_files::RevocationFiles;
use host_keys::check_key;
use sshkey_calls::number::MEMORY;
use sshkey_keys_ref::KeyDataRef;
use sshkey_known_hosts::{HmacSha1, PlacedText};
use std::alloc::Global;

/// The number of whether a key that was read is the host's, by these texts of known_hosts and the
/// revocation files (`host_keys::check_key`), and 1 if memory ran out.
pub fn host_key_status(
    alloc: Global,
    login: &HostRequest<'_>,
    texts: &[&[u8]],
    key: &KeyDataRef<'_>,
) -> u32
    requires { are_texts login.now ≡ true }
    ensures { (k : Key) → SpellsKey k (key_bytes key.now)
        → TellsKey login.now (lines_of texts.now) k result }
{
    let Ok(key) = key.to_key_data(alloc) else {
        return MEMORY;
    };
    let Ok(files) = RevocationFiles::read(alloc, login.revoked) else {
        return MEMORY;
    };
    let known = login.with_texts(texts);
    answer_status(
        check_key(alloc, &known, &key, &HmacSha1, &files),
        files.are_read(),
    )
}

/// The same by a text that is held and by the texts of known_hosts, as if all stood in one.
pub fn held_host_key_status(
    alloc: Global,
    login: &HostRequest<'_>,
    held: &PlacedText<'_>,
    key: &KeyDataRef<'_>,
) -> u32
    requires texts { are_texts login.now ≡ true }
    requires whole { total_length held.now.places.now ≡ length held.now.text.now }
    ensures { ArePlacesOf held.now.places.now held.now.text.now → (k : Key)
        → SpellsKey k (key_bytes key.now)
        → TellsKey login.now (held_lines login.now held.now.text.now) k result }
{
    let Ok(texts) = login.texts_with(alloc, held) else {
        return MEMORY;
    };
    host_key_status(alloc, login, &texts, key)
}
