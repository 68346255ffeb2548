//! The syntax of one option of an entry: its name, its quoted value, and the commas between.

ghost use Rattle.std.specs.Prelude.{◌≡◌, ◌<◌, ◌↔◌, IfErr, IfOk, IsTrue, length, not, position, string_bytes};
ghost use Rattle.sshkey_base.specs.declared.error.Error.TheVariants as wide;
ghost use Rattle.sshkey_entries.specs.Items.{is_comma};
ghost use Rattle.sshkey_entries.specs.OptionItems.{EndsOption, is_name_character, unescaped, without_commas};
ghost use Rattle.sshkey_entries.specs.Fields.{is_plain_quote};
ghost use Rattle.sshkey_authorized_keys.specs.Options.{CutsName, CutsQuoted, CutsValue, FindsPlace, is_escape};

use sshkey_base::Result;
use std::alloc::Global;

// ---- commas

fn other_place(text: &[u8]) -> Option<usize>
    ensures { result ≡ position (λ c. not (is_comma c)) text.now }
{
    text.iter().position(|byte| *byte != b',')
}

/// The text without the commas at its front.
pub(crate) fn skip_commas(text: &str) -> &str
    ensures { result.now ≡ without_commas text.now }
{
    match other_place(text.as_bytes()) {
        Some(start) => &text[start..],
        None => "",
    }
}

/// Whether nothing follows, or a comma.
pub(crate) fn ends_option(rest: &str) -> bool
    ensures { IsTrue result ↔ EndsOption rest.now }
{
    rest.is_empty() || rest.starts_with(',')
}

// ---- names

fn is_name_character(byte: u8) -> bool
    ensures { result ≡ is_name_character byte }
{
    !matches!(byte, b',' | b'"' | b'=' | b' ' | b'\t')
}

fn name_end(text: &[u8]) -> Option<usize>
    ensures { result ≡ position (λ c. not (is_name_character c)) text.now }
{
    text.iter().position(|byte| !is_name_character(*byte))
}

/// The name at the front, which may be empty, and what follows it.
pub(crate) fn split_name(text: &str) -> (&str, &str)
    ensures { CutsName text.now result.0.now result.1.now }
{
    match name_end(text.as_bytes()) {
        Some(end) => text.split_at(end),
        None => (text, ""),
    }
}

// ---- values

/// Whether a quote stands at the place, with no backslash before it.
pub(crate) fn is_plain_quote(line: &[u8], place: usize) -> bool
    requires { place < length line.now }
    ensures { result ≡ is_plain_quote line.now place }
{
    line[place] == b'"' && !(place > 0 && line[place - 1] == b'\\')
}

/// The place of the first quote that stands after no backslash.
fn quote_end(text: &[u8]) -> Option<usize>
    ensures { FindsPlace is_plain_quote text.now result }
{
    for place in 0..text.len() {
        if is_plain_quote(text, place) {
            return Some(place);
        }
    }
    None
}

/// The quoted text at the front, and what follows its quote.
fn split_quoted(text: &str) -> Option<(&str, &str)>
    ensures { CutsQuoted text.now result }
{
    match quote_end(text.as_bytes()) {
        Some(end) => Some((&text[..end], &text[end + 1..])),
        None => None,
    }
}

/// The value at the front, in its quotes, or none where no `="` stands there; and what follows.
pub(crate) fn split_value(text: &str) -> Option<(Option<&str>, &str)>
    ensures { CutsValue text.now result }
{
    let Some(after) = text.strip_prefix("=\"") else {
        return Some((None, text));
    };
    match split_quoted(after) {
        Some((quoted, rest)) => Some((Some(quoted), rest)),
        None => None,
    }
}

fn is_escape(text: &[u8], place: usize) -> bool
    requires { place < length text.now }
    ensures { result ≡ is_escape text.now place }
{
    text[place] == b'\\' && text.get(place + 1) == Some(&b'"')
}

/// The place of the first backslash before a quote.
fn escape_place(text: &[u8]) -> Option<usize>
    ensures { FindsPlace is_escape text.now result }
{
    for index in 0..text.len() {
        if is_escape(text, index) {
            return Some(index);
        }
    }
    None
}

/// A copy without the backslashes before quotes.
pub(crate) fn unescaped(alloc: Global, text: &str) -> Result<String>
    ensures value { IfOk result (λ value. string_bytes value ≡ unescaped text.now) }
    ensures memory { IfErr result (λ e. e ≡ wide.Memory) }
{
    let mut value = String::with_capacity(alloc, text.len())?;
    let mut rest = text;
    'parts: while let Some(place) = escape_place(rest.as_bytes()) {
        value.push_str(&rest[..place])?;
        rest = &rest[place + 1..];
    }
    value.push_str(rest)?;
    Ok(value)
}
