//! Keys of a later kind.

ghost use Rattle.std.specs.List.{starts_with};
ghost use Rattle.base64.specs.Engines.{standard};
ghost use Rattle.base64.specs.GeneralPurpose.{IsBytes, encode_of};
ghost use Rattle.std.specs.Prelude.{◌≡◌, ◌↔◌, List, ℕ, IfErr, IfOk, IsTrue, eqb, length};
ghost use Rattle.sshkey_base.specs.declared.error.Error.TheVariants.{Memory};
ghost use Rattle.sshkey_entries.specs.Answers.{IsTheOne};
ghost use Rattle.sshkey_revoked_keys.specs.RevokedKeys.{IsLaterKey, later_front, later_name};

use sshkey_base::{Reader, Result};
use sshkey_base64::Base64Reader;
use std::alloc::Global;

/// The name of the kind.
const NAME: &str = "ssh-mldsa44-ed25519";
/// What its keys begin with: the name as a string, and the length of the string that follows.
const FRONT: &[u8] = b"\0\0\0\x13ssh-mldsa44-ed25519\0\0\x05\x40";
/// How many bytes its keys have.
const LEN: usize = 1371;

fn is_later_name(name: &str) -> bool
    ensures { IsTrue result ↔ (name.now ≡ later_name) }
{
    name == NAME
}

fn has_later_front(blob: &[u8]) -> bool
    ensures { result ≡ starts_with eqb blob.now later_front }
{
    blob.starts_with(FRONT)
}

/// The bytes, as many, that a word spells in padded Base64.
fn read_bytes(word: &str) -> Option<[u8; LEN]>
    ensures { IsTheOne (λ blob. blob) (λ blob. IsBytes blob × (length blob ≡ 1371)
        × (word.now ≡ encode_of standard blob)) result }
{
    let Ok(mut reader) = Base64Reader::new(word) else {
        return None;
    };
    if reader.remaining_len() != LEN {
        return None;
    }
    let mut blob = [0; LEN];
    match reader.read(&mut blob) {
        Ok(()) => Some(blob),
        Err(_) => None,
    }
}

/// The bytes of the key of the later kind that a name and a word are, if they are one.
pub(crate) fn read_later_key(alloc: Global, name: &str, word: &str) -> Result<Option<Vec<u8>>>
    ensures found { IfOk result (IsTheOne (λ key. key.items) (IsLaterKey name.now word.now)) }
    ensures memory { IfErr result
        (λ e. (e ≡ Memory) × ((blob : List ℕ) × IsLaterKey name.now word.now blob)) }
{
    if !is_later_name(name) {
        return Ok(None);
    }
    let Some(blob) = read_bytes(word) else {
        return Ok(None);
    };
    if !has_later_front(&blob) {
        return Ok(None);
    }
    Ok(Some(Vec::from_slice(alloc, &blob)?))
}
