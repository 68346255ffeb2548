//! Whether hosts are for a name, told by their text, without memory.

ghost use Rattle.std.specs.Prelude.{◌≡◌, ◌++◌, ◌<◌, ◌≤◌, ◌↔◌, IsTrue, length, slice_index};
ghost use Rattle.base64.specs.Decode.{decoded_estimate};
ghost use Rattle.sshkey_base64.specs.Words64.{DecodesSome};
ghost use Rattle.sshkey_entries.specs.HostVerdicts.{AreForName};
ghost use Rattle.sshkey_entries.specs.Items.{patterns};
ghost use Rattle.sshkey_entries.specs.KnownHosts.{bar, hashed_mark};
ghost use Rattle.sshkey_known_hosts.specs.HostLines.{ReadsAll, ReadsTwenty, TellsHosts};

use crate::host_hasher::HostHasher;
use base64::engine::general_purpose::STANDARD;
use sshkey_base::Reader;
use sshkey_base64::Base64Reader;
use sshkey_entries::bytes::text_of;
use sshkey_entries::{LetterCase, bytes_match_pattern_list};

/// The bytes of a salt that OpenSSH takes, and of a hash.
const LEN: usize = 20;

/// The symbols of 20 bytes in padded Base64.
const SYMBOLS: usize = 28;

/// Reads a source to its end: how many bytes it has, and which, if they are 20.
fn read_all<R: Reader + Drop>(mut reader: R) -> Option<([u8; LEN], usize)>
    ensures { ReadsAll (R.source reader) result }
{
    let len = reader.remaining_len();
    let mut bytes = [0; LEN];
    'pieces: while !reader.is_finished() {
        let count = reader.remaining_len().min(LEN);
        let Ok(()) = reader.read(&mut bytes[..count]) else {
            return None;
        };
    }
    Some((bytes, len))
}

/// Decodes a word in padded Base64, and says how many bytes it has.
fn decode(word: &[u8], room: &mut [u8]) -> Option<usize>
    requires { decoded_estimate (length word.now) ≤ length room.old }
    ensures { DecodesSome word.now room.new result }
{
    match STANDARD.decode_slice_unchecked(word, room) {
        Ok(len) => Some(len),
        Err(_) => None,
    }
}

/// How many bytes a word of so many symbols has, and which, if they are 20.
fn read_word(word: &[u8]) -> Option<([u8; LEN], usize)>
    requires { length word.now ≡ 28 }
    ensures { ReadsTwenty word.now result }
{
    let mut room = [0; LEN + 1];
    let len = decode(word, &mut room)?;
    let mut twenty = [0; LEN];
    twenty.copy_from_slice(&room[..LEN]);
    Some((twenty, len))
}

/// The same of any word in padded Base64.
fn read_twenty(word: &str) -> Option<([u8; LEN], usize)>
    ensures { ReadsTwenty word.now result }
{
    if word.len() == SYMBOLS {
        return read_word(word.as_bytes());
    }
    match Base64Reader::new(word) {
        Ok(reader) => read_all(reader),
        Err(_) => None,
    }
}

/// Whether the salt and the hash after the mark are the name's, or none if no such two stand there.
#[inline(never)]
fn is_hash_of<H: HostHasher>(hashed: &str, name: &str, hmac: &H) -> Option<bool>
    ensures { TellsHosts (H.hmac hmac.now) name.now (hashed_mark ++ hashed.now) result }
{
    let (salt, hash) = hashed.split_once('|')?;
    let salt = read_twenty(salt)?;
    let hash = read_twenty(hash)?;
    if hash.1 != LEN {
        return None;
    }
    Some(salt.1 == LEN && hmac.hash(&salt.0, name.as_bytes()) == hash.0)
}

/// The same of any bytes.
fn are_hash_of<H: HostHasher>(hashed: &[u8], name: &str, hmac: &H) -> Option<bool>
    ensures { TellsHosts (H.hmac hmac.now) name.now (hashed_mark ++ hashed.now) result }
{
    match text_of(hashed) {
        Some(text) => is_hash_of(text, name, hmac),
        None => None,
    }
}

pub(crate) fn begins_with_bar(text: &[u8]) -> bool
    ensures { IsTrue result ↔ (slice_index text.now 0 ≡ bar) }
{
    matches!(text, [b'|', ..])
}

/// Whether the patterns are for the name.
#[tactic(auto, using(crate::proofs::Hosts::begin_alike))]
fn are_patterns_for(text: &[u8], name: &str) -> bool
    requires { 0 < length text.now }
    ensures { IsTrue result ↔ AreForName name.now (patterns text.now) }
{
    !begins_with_bar(text)
        && bytes_match_pattern_list(name.as_bytes(), text, LetterCase::Insensitive)
}

/// Whether the hosts of that text are for the name, or none if it is no text of hosts.
pub(crate) fn are_for<H: HostHasher>(text: &[u8], name: &str, hmac: &H) -> Option<bool>
    ensures { TellsHosts (H.hmac hmac.now) name.now text.now result }
{
    if let Some(hashed) = text.strip_prefix(b"|1|") {
        return are_hash_of(hashed, name, hmac);
    }
    if text.is_empty() {
        return None;
    }
    Some(are_patterns_for(text, name))
}
