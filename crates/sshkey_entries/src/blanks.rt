//! Spaces and tabs between fields, and white space behind a word.

ghost use Rattle.std.specs.List.{suffix_len};
ghost use Rattle.std.specs.Prelude.{◌≡◌, ◌<◌, ◌≤◌, ◌-◌, ℕ, length, position, not, slice_index, true};
ghost use Rattle.sshkey_entries.specs.Fields.{CutsWord, is_white, without_blanks, is_blank, CutsField};

use memchr::memchr2;

fn is_blank(byte: u8) -> bool
    ensures { result ≡ is_blank byte }
{
    byte == b' ' || byte == b'\t'
}

pub(crate) fn first_blank(text: &[u8]) -> Option<usize>
    ensures { result ≡ position is_blank text.now }
{
    memchr2(b' ', b'\t', text)
}

pub(crate) fn first_other(text: &[u8]) -> Option<usize>
    ensures { result ≡ position (λ c. not (is_blank c)) text.now }
{
    text.iter().position(|byte| !is_blank(*byte))
}

/// Whether it is white space that ends no field, and that OpenSSH passes over in Base64: a vertical
/// tab, a form feed or a carriage return. Does not allocate.
pub fn is_white(byte: u8) -> bool
    ensures { result ≡ is_white byte }
{
    byte == 0x0b || byte == 0x0c || byte == 0x0d
}

/// How many bytes of a field stand before the white space at its end.
pub(crate) fn word_len(field: &[u8]) -> usize
    ensures size { result ≡ length field.now - suffix_len is_white field.now }
    ensures bound { result ≤ length field.now }
    ensures behind { (k : ℕ) → result ≤ k → k < length field.now →
        is_white (slice_index field.now k) ≡ true }
{
    let mut len = field.len();
    'white: while len > 0 && is_white(field[len - 1]) {
        len -= 1;
    }
    len
}

/// The text without the spaces and tabs at its front. Does not allocate.
pub fn skip_blanks(text: &str) -> &str
    ensures { result.now ≡ without_blanks text.now }
{
    match first_other(text.as_bytes()) {
        Some(start) => &text[start..],
        None => "",
    }
}

/// The text up to its first space or tab, and what follows from there. Does not allocate.
pub fn split_blank(text: &str) -> (&str, &str)
    ensures { CutsField text.now result.0.now result.1.now }
{
    match first_blank(text.as_bytes()) {
        Some(end) => text.split_at(end),
        None => (text, ""),
    }
}

/// The text up to its first space or tab, without the white space at the end of that, and what
/// follows from the space or tab. Does not allocate.
pub(crate) fn split_word(text: &str) -> (&str, &str)
    ensures { CutsWord text.now result.0.now result.1.now }
{
    let (field, rest) = split_blank(text);
    (&field[..word_len(field.as_bytes())], rest)
}
