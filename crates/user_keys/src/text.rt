//! The lines of a text, and what divides a line, byte by byte.

ghost use Rattle.std.specs.List.{before_first};
ghost use Rattle.std.specs.Prelude.{◌≡◌, ◌==◌, not, position};
ghost use Rattle.std.specs.Str.Lines.{strip_carriage_return};
ghost use Rattle.sshkey_entries.specs.Fields.{without_blanks, is_blank};
ghost use Rattle.user_keys.specs.Principals.{SplitsAt, SplitsLine, TakesLine};

use memchr::memchr;

/// The text before the first such byte, and what stands after it, if there is one.
pub(crate) fn split_once(text: &[u8], divider: u8) -> Option<(&[u8], &[u8])>
    ensures { SplitsAt divider text.now result }
{
    match first_of(text, divider) {
        Some(place) => Some((&text[..place], &text[place + 1..])),
        None => None,
    }
}

fn first_of(text: &[u8], divider: u8) -> Option<usize>
    ensures { result ≡ position (λ c. c == divider) text.now }
{
    memchr(divider, text)
}

/// The text up to the first such byte, or all of it.
pub(crate) fn before_first(text: &[u8], end: u8) -> &[u8]
    ensures { result.now ≡ before_first (λ c. c == end) text.now }
{
    match split_once(text, end) {
        Some((front, _)) => front,
        None => text,
    }
}

/// The text up to its first line feed, and what follows it, if there is one.
pub(crate) fn split_line(text: &[u8]) -> (&[u8], Option<&[u8]>)
    ensures { SplitsLine text.now result.0.now result.1 }
{
    match split_once(text, b'\n') {
        Some((line, rest)) => (line, Some(rest)),
        None => (text, None),
    }
}

/// The first line, without a carriage return before its line feed, and what follows it. An empty
/// text has none.
pub(crate) fn next_line(text: &[u8]) -> Option<(&[u8], &[u8])>
    ensures { TakesLine text.now result }
{
    if text.is_empty() {
        return None;
    }
    match split_once(text, b'\n') {
        Some((line, rest)) => Some((without_return(line), rest)),
        None => Some((text, &[])),
    }
}

/// The line without a carriage return at its end.
fn without_return(line: &[u8]) -> &[u8]
    ensures { result.now ≡ strip_carriage_return line.now }
{
    if line.is_empty() || line[line.len() - 1] != b'\r' {
        return line;
    }
    &line[..line.len() - 1]
}

/// Whether the byte is a space or a tab.
pub(crate) fn is_blank(byte: u8) -> bool
    ensures { result ≡ is_blank byte }
{
    byte == b' ' || byte == b'\t'
}

fn first_other(text: &[u8]) -> Option<usize>
    ensures { result ≡ position (λ c. not (is_blank c)) text.now }
{
    text.iter().position(|byte| !is_blank(*byte))
}

/// The text without the spaces and tabs at its front.
pub(crate) fn skip_blanks(text: &[u8]) -> &[u8]
    ensures { result.now ≡ without_blanks text.now }
{
    match first_other(text) {
        Some(start) => &text[start..],
        None => &[],
    }
}
