//! A line of a file of principals.

ghost use Rattle.std.specs.Prelude.{◌≡◌, ◌==◌, [], MatchOption, false, option_map, true};
ghost use Rattle.std.specs.Str.{IsUtf8};
ghost use Rattle.user_keys.specs.Principals.{AreFrontOptions, DropsLast, FindsLast, HasOptions, after_last, last_word, name_in, trimmed};

use crate::text::{before_first, is_blank, skip_blanks, split_once};
use sshkey_authorized_keys::split_options;
use std::str;

/// A line of a file of principals: the name of one, and the options before it.
#[derive(Clone, Copy)]
pub(crate) struct PrincipalLine<'a> {
    /// Empty where a comment or nothing stands.
    pub name: &'a [u8],
    /// Empty where the name is all; none where the line is no UTF-8 up to a `#`.
    pub options: Option<&'a str>,
}

impl<'a> PrincipalLine<'a> {
    /// The name and the options of a line. sshd(8) ends it at a `#`, also at one within quotes.
    pub(crate) fn of(line: &'a [u8]) -> PrincipalLine<'a>
        ensures name { result.name.now ≡ name_in line.now }
        ensures options { HasOptions line.now (option_map (λ o. o.now) result.options) }
    {
        let entry = skip_blanks(before_first(before_first(line, 0), b'#'));
        let text = trimmed(entry);
        let name = last_word(text);
        let options = options_before(entry, name.len() == text.len());
        PrincipalLine { name, options }
    }
}

/// The options of an entry that is UTF-8, of which the name is all or not.
fn options_before(entry: &[u8], is_alone: bool) -> Option<&str>
    ensures { MatchOption result (IsUtf8 entry.now → ⊥) (λ o. IsUtf8 entry.now
        × (is_alone ≡ true → o.now ≡ []) × (is_alone ≡ false → AreFrontOptions entry.now o.now)) }
{
    let Ok(text) = str::from_utf8(entry) else {
        return None;
    };
    if is_alone {
        return Some("");
    }
    Some(front_options(text))
}

/// The text without the spaces and tabs at its end.
fn trimmed(text: &[u8]) -> &[u8]
    ensures { result.now ≡ trimmed text.now }
{
    let mut rest = text;
    while let Some(front) = without_last(rest) {
        rest = front;
    }
    rest
}

/// The text without the space or the tab at its end, if one stands there.
fn without_last(text: &[u8]) -> Option<&[u8]>
    ensures { DropsLast text.now result }
{
    let Some((last, front)) = text.split_last() else {
        return None;
    };
    if is_blank(*last) { Some(front) } else { None }
}

/// What stands after the last space, or else after the last tab.
fn last_word(text: &[u8]) -> &[u8]
    ensures { result.now ≡ last_word text.now }
{
    match after_last(text, b' ') {
        Some(word) => skip_blanks(word),
        None => match after_last(text, b'\t') {
            Some(word) => word,
            None => text,
        },
    }
}

/// What stands after the last divider, if there is one.
fn after_last(text: &[u8], divider: u8) -> Option<&[u8]>
    ensures { FindsLast (λ c. c == divider) text.now result }
{
    match split_once(text, divider) {
        Some((_, rest)) => Some(after_all(rest, divider)),
        None => None,
    }
}

/// What stands after all dividers.
fn after_all(text: &[u8], divider: u8) -> &[u8]
    ensures { result.now ≡ after_last (λ c. c == divider) text.now }
{
    let mut rest = text;
    while let Some((_, more)) = split_once(rest, divider) {
        rest = more;
    }
    rest
}

/// The options at the front of a text: up to its first space or tab outside quotes, or all of it.
fn front_options(text: &str) -> &str
    ensures { AreFrontOptions text.now result.now }
{
    match split_options(text) {
        Some((options, _)) => options,
        None => text,
    }
}
