//! A key in the fields of a line.

ghost use Rattle.std.specs.Prelude.{◌≡◌, ◌<◌, ◌↔◌, IfErr, IfOk, IsTrue, length, string_bytes};
ghost use Rattle.sshkey_entries.specs.Answers.{RefusesFor};
ghost use Rattle.sshkey_keys.specs.Keys.{key_of};
ghost use Rattle.sshkey_model.specs.Lines.{key_name};
ghost use Rattle.sshkey_base.specs.declared.error.Error.TheVariants as wide;
ghost use Rattle.sshkey_entries.specs.Fields.{AsksKeyFields, HasKeyFault, IsKept, ReadsKeyBytes, ReadsKeyFields};

use crate::blanks::{skip_blanks, split_blank, split_word};
use crate::bytes::{self, text_of};
use sshkey_base::{Error, Result, encoding};
use sshkey_keys::KeyData;
use sshkey_public::{PublicKey, copy_of_text, read_word};
use std::alloc::Global;

fn is_named(key: &KeyData, name: &str) -> bool
    ensures { IsTrue result ↔ (name.now ≡ key_name (key_of key.now)) }
{
    name == key.algorithm_name()
}

/// Reads a key's fields: the name of its algorithm, the key in padded Base64, and a comment, which
/// is all that follows. Spaces or tabs stand between. Vertical tabs, form feeds and carriage returns
/// right behind the Base64 are passed over, as OpenSSH does.
///
/// Unless memory runs out, it fails exactly if the text is the fields of no key: `Length` where the
/// Base64 is missing, the errors of `sshkey_public::read_word`, and `AlgorithmUnknown` where the
/// first field is not the name of the key that the Base64 spells.
///
/// `Memory` means that an allocation failed: for the key in the second field, as
/// `sshkey_public::read_word` says, or for the comment, if that is not empty, of a text that is a
/// key's fields.
pub fn read_key_fields(alloc: Global, text: &str) -> Result<PublicKey>
    ensures reads { ReadsKeyFields text.now result }
    ensures fault { RefusesFor HasKeyFault text.now result }
    ensures asks { AsksKeyFields text.now result }
{
    let (name, after_name) = split_blank(text);
    let (word, after_key) = split_word(skip_blanks(after_name));
    if word.is_empty() {
        return Err(Error::Encoding(encoding::Error::Length));
    }
    let key_data: KeyData = read_word(alloc, word)?;
    if !is_named(&key_data, name) {
        return Err(Error::AlgorithmUnknown);
    }
    let comment = copy_of_text(alloc, skip_blanks(after_key))?;
    Ok(PublicKey::new(key_data, comment))
}

/// A copy of a comment, or an empty text in place of one that is not UTF-8.
fn copy_of_comment(alloc: Global, comment: &[u8]) -> Result<String>
    ensures text { IfOk result (λ copy. IsKept comment.now (string_bytes copy)) }
    ensures memory { IfErr result (λ e. (e ≡ wide.Memory) × (0 < length comment.now)) }
{
    match text_of(comment) {
        Some(text) => copy_of_text(alloc, text),
        None => Ok(String::new(alloc)),
    }
}

/// Reads a key's fields as `read_key_fields` does, from any bytes: a comment that is not UTF-8
/// decides nothing, and the key's is empty then.
///
/// Unless memory runs out, it fails exactly if the bytes are the fields of no key: with the errors
/// of `read_key_fields`, and with `CharacterEncoding` where one of the first two fields is not
/// UTF-8. Memory is asked for as there.
pub fn read_key_bytes(alloc: Global, fields: &[u8]) -> Result<PublicKey>
    ensures reads { ReadsKeyBytes fields.now result }
    ensures asks { AsksKeyFields fields.now result }
{
    let (name, after_name) = bytes::split_blank(fields);
    let (word, after_key) = bytes::split_word(bytes::skip_blanks(after_name));
    if word.is_empty() {
        return Err(Error::Encoding(encoding::Error::Length));
    }
    let Some(name) = text_of(name) else {
        return Err(Error::Encoding(encoding::Error::CharacterEncoding));
    };
    let Some(word) = text_of(word) else {
        return Err(Error::Encoding(encoding::Error::CharacterEncoding));
    };
    let key_data: KeyData = read_word(alloc, word)?;
    if !is_named(&key_data, name) {
        return Err(Error::AlgorithmUnknown);
    }
    let comment = copy_of_comment(alloc, bytes::skip_blanks(after_key))?;
    Ok(PublicKey::new(key_data, comment))
}
