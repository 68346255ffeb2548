//! Values that a word spells, under their names.

ghost use Rattle.std.specs.Prelude.{◌≡◌, ◌↔◌, ◌≤◌, length, IsTrue};
ghost use Rattle.sshkey_public.specs.Lines.{AsksWord};
ghost use Rattle.sshkey_entries.specs.Answers.{ReadsEntry, RefusesFor};
ghost use Rattle.sshkey_revoked_keys.specs.RevokedKeys.{HasNameFault, IsNamedWord};

use sshkey_base::{Error, Result, SliceWriter};
use sshkey_public::{Blob, read_word};
use std::alloc::Global;

/// Whether the bytes are the same.
fn is_same(left: &[u8], right: &[u8]) -> bool
    ensures { IsTrue result ↔ (left.now ≡ right.now) }
{
    left == right
}

/// Whether the value has that name. A value's name has at most 73 bytes.
fn is_named<T: Blob>(value: &T, name: &str) -> bool
    requires { length (T.name (T.value value.now)) ≤ 73 }
    ensures { IsTrue result ↔ (name.now ≡ T.name (T.value value.now)) }
{
    let mut buffer = [0u8; 73];
    let mut writer = SliceWriter::new(&mut buffer);
    match value.write_name(&mut writer) {
        Ok(()) => is_same(writer.written(), name.as_bytes()),
        Err(_) => false,
    }
}

/// The value of that name which the word spells in padded Base64.
///
/// Unless memory runs out, it fails exactly if there is none: with the errors of `read_word`, and
/// with `AlgorithmUnknown` for a value of another name.
pub(crate) fn read_named<T: Blob + Drop>(alloc: Global, name: &str, word: &str) -> Result<T>
    ensures reads { ReadsEntry T.value (IsNamedWord T.name T.Spelling name.now) word.now result }
    ensures fault { RefusesFor (HasNameFault T.format T.name T.Spelling name.now) word.now result }
    ensures asks { AsksWord T.format word.now result }
{
    T::lawful_blob();
    let value: T = read_word(alloc, word)?;
    if !is_named(&value, name) {
        return Err(Error::AlgorithmUnknown);
    }
    Ok(value)
}
