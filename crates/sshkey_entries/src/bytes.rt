//! The lines of a text of any bytes, and the fields of a line: what decides has to be UTF-8, and no
//! comment decides.

ghost use Rattle.std.specs.Prelude.{◌≡◌, ◌<◌, length, position};
ghost use Rattle.std.specs.Str.Lines.{strip_carriage_return};
ghost use Rattle.sshkey_entries.specs.Entries.{CutsLine, IsTextOf, is_line_end};
ghost use Rattle.sshkey_entries.specs.Fields.{CutsField, CutsWord, is_filled, without_blanks};

use crate::blanks::{first_blank, first_other, word_len};
use memchr::memchr;
use std::str;

/// The place of the first line feed, if there is one. Does not allocate.
pub fn first_line_end(text: &[u8]) -> Option<usize>
    ensures { result ≡ position is_line_end text.now }
{
    memchr(b'\n', text)
}

/// The text without the carriage return at its end. Does not allocate.
pub fn without_return(text: &[u8]) -> &[u8]
    ensures { result.now ≡ strip_carriage_return text.now }
{
    match text.split_last() {
        Some((b'\r', front)) => front,
        _ => text,
    }
}

/// The text without the spaces and tabs at its front. Does not allocate.
pub fn skip_blanks(text: &[u8]) -> &[u8]
    ensures { result.now ≡ without_blanks text.now }
{
    match first_other(text) {
        Some(start) => &text[start..],
        None => &[],
    }
}

/// The text up to its first space or tab, and what follows from there. Does not allocate.
pub fn split_blank(text: &[u8]) -> (&[u8], &[u8])
    ensures { CutsField text.now result.0.now result.1.now }
{
    match first_blank(text) {
        Some(end) => text.split_at(end),
        None => (text, &[]),
    }
}

/// The text up to its first space or tab, without the white space at the end of that, and what
/// follows from the space or tab. Does not allocate.
pub fn split_word(text: &[u8]) -> (&[u8], &[u8])
    ensures { CutsWord text.now result.0.now result.1.now }
{
    let (field, rest) = split_blank(text);
    (&field[..word_len(field)], rest)
}

/// Whether the line is neither empty nor a comment, which a `#` begins. Does not allocate.
pub fn is_filled(line: &[u8]) -> bool
    ensures { result ≡ is_filled line.now }
{
    match line.first() {
        Some(first) => *first != b'#',
        None => false,
    }
}

/// The first line of a text, without its end, and what follows that. Does not allocate.
pub fn split_line(text: &[u8]) -> (&[u8], &[u8])
    requires { 0 < length text.now }
    ensures { CutsLine text.now result.0.now result.1.now }
{
    match first_line_end(text) {
        Some(end) => (without_return(&text[..end]), &text[end + 1..]),
        None => (text, &[]),
    }
}

/// The bytes as a text, if they are UTF-8. Does not allocate.
pub fn text_of(bytes: &[u8]) -> Option<&str>
    ensures { IsTextOf bytes.now result }
{
    match str::from_utf8(bytes) {
        Ok(text) => Some(text),
        Err(_) => None,
    }
}
