//! Lists of patterns.

ghost use Rattle.std.specs.Prelude.{◌≡◌, ◌<◌, ◌∷◌, ◌↔◌, length, position, slice_index, IsTrue};
ghost use Rattle.std.specs.List.{after_first, before_first};
ghost use Rattle.sshkey_matching.specs.Patterns.{is_comma, patterns, IsShortPattern, MatchesList, MatchesUnnegated, MatchesNegated, exclamation_mark, unmarked, fold_of};

use crate::pattern::{LetterCase, is_match};

/// The least number of bytes that is too long for a pattern, its mark `!` aside.
const TOO_LONG: usize = 1023;

/// Whether a list of patterns is for the text (ssh_config(5), "PATTERNS"): of those between its
/// commas, a last empty one left out, one without a `!` in front matches the text, as
/// `matches_pattern` does, and none with one does, the `!` aside. Does not allocate.
///
/// OpenSSH calls it `match_pattern_list`, and hands it a text in small letters where case does not
/// count. As there, a list with a pattern of 1,023 bytes or more, the `!` aside, is for no text.
///
/// Knows no networks, which lists of the option `from` (sshd(8)) may hold: here `!10.0.0.0/8,*` is
/// for 10.1.2.3, which sshd(8) rejects.
pub fn matches_pattern_list(text: &str, list: &str, letter_case: LetterCase) -> bool
    ensures { IsTrue result ↔ MatchesList (fold_of letter_case) list.now text.now }
{
    bytes_match_pattern_list(text.as_bytes(), list.as_bytes(), letter_case)
}

/// What `matches_pattern_list` says, of any bytes. Does not allocate.
pub fn bytes_match_pattern_list(text: &[u8], list: &[u8], letter_case: LetterCase) -> bool
    ensures { IsTrue result ↔ MatchesList (fold_of letter_case) list.now text.now }
{
    let mut is_named = false;
    let mut rest = list;
    'patterns: while !rest.is_empty() {
        let (pattern, more) = split_first_pattern(rest);
        if !is_short(pattern) || refuses(pattern, text, letter_case) {
            return false;
        }
        is_named |= names(pattern, text, letter_case);
        rest = more;
    }
    is_named
}

/// A list up to its first comma, or all of it, and what follows that comma, of any bytes. Does not
/// allocate.
pub fn split_first_pattern(list: &[u8]) -> (&[u8], &[u8])
    requires { 0 < length list.now }
    ensures { patterns list.now ≡ result.0.now ∷ patterns result.1.now }
{
    match first_comma(list) {
        Some(end) => (&list[..end], &list[end + 1..]),
        None => (list, &[]),
    }
}

fn first_comma(list: &[u8]) -> Option<usize>
    ensures { result ≡ position is_comma list.now }
{
    list.iter().position(|byte| *byte == b',')
}

fn names(pattern: &[u8], text: &[u8], letter_case: LetterCase) -> bool
    ensures { IsTrue result ↔ MatchesUnnegated (fold_of letter_case) text.now pattern.now }
{
    !is_negated(pattern) && is_match(text, pattern, letter_case)
}

fn refuses(pattern: &[u8], text: &[u8], letter_case: LetterCase) -> bool
    ensures { IsTrue result ↔ MatchesNegated (fold_of letter_case) text.now pattern.now }
{
    is_negated(pattern) && is_match(text, unmarked(pattern), letter_case)
}

fn is_short(pattern: &[u8]) -> bool
    ensures { IsTrue result ↔ IsShortPattern pattern.now }
{
    unmarked(pattern).len() < TOO_LONG
}

/// Whether the pattern, one of a list, is not negated by a `!` in front, and matches the text. Does
/// not allocate.
pub fn is_named_by(text: &str, pattern: &str, letter_case: LetterCase) -> bool
    ensures { IsTrue result ↔ MatchesUnnegated (fold_of letter_case) text.now pattern.now }
{
    names(pattern.as_bytes(), text.as_bytes(), letter_case)
}

/// Whether the pattern, one of a list, is negated by a `!` in front, and what follows that matches
/// the text. Does not allocate.
pub fn is_refused_by(text: &str, pattern: &str, letter_case: LetterCase) -> bool
    ensures { IsTrue result ↔ MatchesNegated (fold_of letter_case) text.now pattern.now }
{
    refuses(pattern.as_bytes(), text.as_bytes(), letter_case)
}

/// A list up to its first comma, or all of it, and what follows that comma. Does not allocate.
pub fn split_pattern(list: &str) -> (&str, &str)
    requires { 0 < length list.now }
    ensures patterns { patterns list.now ≡ result.0.now ∷ patterns result.1.now }
    ensures pattern { result.0.now ≡ before_first is_comma list.now }
    ensures rest { result.1.now ≡ after_first is_comma list.now }
{
    match list.split_once(',') {
        Some((pattern, rest)) => (pattern, rest),
        None => (list, ""),
    }
}

fn is_negated(pattern: &[u8]) -> bool
    ensures { IsTrue result ↔ (slice_index pattern.now 0 ≡ exclamation_mark) }
{
    matches!(pattern, [b'!', ..])
}

/// A pattern without its mark of negation.
fn unmarked(pattern: &[u8]) -> &[u8]
    ensures { result.now ≡ unmarked pattern.now }
{
    match pattern {
        [b'!', after @ ..] => after,
        _ => pattern,
    }
}

/// Whether the pattern, one of a list, has fewer than 1,023 bytes, a `!` in front aside: OpenSSH
/// takes a list with a longer one for nobody's. Does not allocate.
pub fn is_short_pattern(pattern: &str) -> bool
    ensures { IsTrue result ↔ IsShortPattern pattern.now }
{
    is_short(pattern.as_bytes())
}
