//! What stands in each line that may spell a key.

ghost use Rattle.std.specs.Prelude.{◌≡◌, ◌↔◌, ◌<◌, ◌≤◌, IsTrue, length, not, position, take};
ghost use Rattle.base64.specs.Engines.{standard};
ghost use Rattle.base64.specs.GeneralPurpose.{encode_of};
ghost use Rattle.sshkey_entries.specs.Fields.{without_front, is_white};
ghost use Rattle.sshkey_keys.specs.Keys.{key_of};
ghost use Rattle.user_keys.specs.Spellings.{AreMarks, FindsAfter, FindsStart, Follow, HasMark, HasMarkAt, IsUnmarked, IsUnspaced, Lacks, StandAt, own_part};

use base64::engine::general_purpose::STANDARD;
use memchr::{memchr3, memmem};
use sshkey_entries::is_white;
use sshkey_keys::KeyData;

/// How many symbols of Base64 a mark has.
const SYMBOLS: usize = 20;

/// The part by which a key is sought: its point, or its last number.
pub(crate) fn own_part(key: &KeyData) -> &[u8]
    ensures { result.now ≡ own_part (key_of key.now) }
{
    match key {
        KeyData::Dsa(key) => key.y.as_bytes(),
        KeyData::Ecdsa(key) => key.as_sec1_bytes(),
        KeyData::Ed25519(key) => &key.0,
        KeyData::Rsa(key) => key.n.as_bytes(),
        KeyData::SkEcdsaSha2NistP256(key) => key.ec_point().as_bytes(),
        KeyData::SkEd25519(key) => &key.public_key().0,
        KeyData::Other(key) => key.key.as_bytes(),
    }
}

fn first_other(text: &[u8]) -> Option<usize>
    ensures { result ≡ position (λ c. not (is_white c)) text.now }
{
    text.iter().position(|byte| !is_white(*byte))
}

fn skip_white(text: &[u8]) -> &[u8]
    ensures { result.now ≡ without_front is_white text.now }
{
    match first_other(text) {
        Some(start) => &text[start..],
        None => &[],
    }
}

/// Whether the text has no such white space. Each byte is looked at, which the compiler does with
/// several at once: `memchr3` takes four times as long where there is none.
fn is_unspaced(text: &[u8]) -> bool
    ensures { IsTrue result ↔ IsUnspaced text.now }
{
    let mut found = false;
    for byte in text {
        found |= is_white(*byte);
    }
    !found
}

/// How many bytes of the text stand before its first white space.
fn unspaced_front(text: &[u8]) -> usize
    ensures bound { result ≤ length text.now }
    ensures unspaced { IsUnspaced (take result text.now) }
{
    if is_unspaced(text) {
        return text.len();
    }
    match memchr3(0x0b, 0x0c, 0x0d, text) {
        Some(place) => place,
        None => text.len(),
    }
}

/// What follows the symbol, if it comes first, white space before it aside.
fn after_symbol(text: &[u8], symbol: u8) -> Option<&[u8]>
    ensures { FindsAfter text.now symbol result }
{
    match skip_white(text) {
        [first, rest @ ..] if *first == symbol => Some(rest),
        _ => None,
    }
}

/// Whether the symbols come first, white space before each aside.
fn follow(text: &[u8], symbols: &[u8]) -> bool
    ensures { IsTrue result ↔ Follow symbols.now text.now }
{
    let mut rest = text;
    for symbol in symbols {
        let Some(after) = after_symbol(rest, *symbol) else {
            return false;
        };
        rest = after;
    }
    true
}

/// Symbols of Base64 that stand in a line one after the other, white space between them aside.
#[derive(Clone, Copy)]
struct Mark {
    symbols: [u8; SYMBOLS],
}

impl Mark {
    /// The Base64 of 15 bytes.
    fn of(bytes: &[u8]) -> Mark
        requires { length bytes.now ≡ 15 }
        ensures { result.symbols ≡ encode_of standard bytes.now }
    {
        let mut symbols = [0; SYMBOLS];
        let _count = STANDARD.encode_slice(bytes, &mut symbols);
        Mark { symbols }
    }

    /// How many bytes of the text stand before the first place where it stands without white space.
    fn free_front(&self, text: &[u8]) -> usize
        requires { 0 < length self.now.symbols }
        ensures bound { result ≤ length text.now }
        ensures free { Lacks self.now.symbols (take result text.now) }
    {
        match memmem::find(text, &self.symbols) {
            Some(place) => place,
            None => text.len(),
        }
    }

    /// Whether it stands in the text from that place on.
    fn stands_at(&self, text: &[u8], place: usize) -> bool
        requires { place < length text.now }
        ensures { IsTrue result ↔ StandAt self.now.symbols text.now place }
    {
        text[place] == self.symbols[0] && follow(&text[place + 1..], &self.symbols[1..])
    }
}

/// The marks of a key, one of which stands in each line that spells it for sshd(8), whatever stands
/// before its own part. Each is the Base64 of 15 of the part's last 17 bytes.
#[derive(Clone, Copy)]
pub(crate) struct Marks {
    first: Mark,
    second: Mark,
    third: Mark,
}

impl Marks {
    /// The marks of a key.
    pub(crate) fn of(key: &KeyData) -> Marks
        requires { 17 ≤ length (own_part (key_of key.now)) }
        ensures { AreMarks (own_part (key_of key.now)) result }
    {
        let part = own_part(key);
        let end = part.len();
        Marks {
            first: Mark::of(&part[end - 17..end - 2]),
            second: Mark::of(&part[end - 16..end - 1]),
            third: Mark::of(&part[end - 15..end]),
        }
    }

    /// Whether one of the marks stands in the text. Does not allocate.
    pub(crate) fn stand_in(&self, text: &[u8]) -> bool
        ensures { IsTrue result ↔ HasMark self.now text.now }
    {
        let mut from = 0;
        while let Some(place) = self.next_place(text, from) {
            if self.stand_at(text, place) {
                return true;
            }
            from = place + 1;
        }
        false
    }

    /// How many bytes stand at the front of a text in no part of which a mark stands.
    pub(crate) fn unmarked_front(&self, text: &[u8]) -> usize
        ensures bound { result ≤ length text.now }
        ensures unmarked { IsUnmarked self.now (take result text.now) }
    {
        let unspaced = unspaced_front(text);
        let first = self.first.free_front(&text[..unspaced]);
        let second = self.second.free_front(&text[..first]);
        self.third.free_front(&text[..second])
    }

    /// The first place from there on where the first symbol of one of the marks stands.
    fn next_place(&self, text: &[u8], from: usize) -> Option<usize>
        requires { from ≤ length text.now }
        ensures { FindsStart self.now text.now from result }
    {
        let first = self.first.symbols[0];
        let second = self.second.symbols[0];
        let third = self.third.symbols[0];
        match memchr3(first, second, third, &text[from..]) {
            Some(step) => Some(from + step),
            None => None,
        }
    }

    fn stand_at(&self, text: &[u8], place: usize) -> bool
        requires { place < length text.now }
        ensures { IsTrue result ↔ HasMarkAt self.now text.now place }
    {
        self.first.stands_at(text, place)
            || self.second.stands_at(text, place)
            || self.third.stands_at(text, place)
    }
}
