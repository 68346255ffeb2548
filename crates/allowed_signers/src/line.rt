//! The front of a line.

ghost use Rattle.std.specs.Prelude.{◌≡◌, ◌↔◌, IsTrue, position, slice_index};
ghost use Rattle.sshkey_entries.specs.Items.{is_quote};
ghost use Rattle.sshkey_entries.specs.OptionItems.{quote};
ghost use Rattle.sshkey_model.specs.Lines.{IsWithout};
ghost use Rattle.sshkey_entries.specs.Answers.{IsTheOne};
ghost use Rattle.allowed_signers.specs.AllowedSigners.{ArePrincipals, CutsQuote, IsFront, IsPlainFront, parts_of};

use sshkey_entries::bytes::split_blank;

/// Whether the byte stands nowhere in the text.
pub(crate) fn is_without(byte: u8, text: &[u8]) -> bool
    ensures { IsTrue result ↔ IsWithout byte text.now }
{
    !text.contains(&byte)
}

/// The principals at the front of a line, and what follows them. None are read where a carriage
/// return stands in them: it ends an unquoted word for ssh-keygen, which would read other
/// principals; in quotes it is rejected alike.
pub(crate) fn split_principals(line: &[u8]) -> Option<(&[u8], &[u8])>
    ensures { IsTheOne parts_of (ArePrincipals line.now) result }
{
    let Some((principals, rest)) = split_front(line) else {
        return None;
    };
    if !is_without(b'\r', principals) {
        return None;
    }
    Some((principals, rest))
}

/// The first text of a line, and what follows it. It is a word, or stands in double quotes. None is
/// read where a quote stands within a word, or quotes stay open.
fn split_front(line: &[u8]) -> Option<(&[u8], &[u8])>
    ensures { IsTheOne parts_of (IsFront line.now) result }
{
    if begins_with_quote(line) {
        return split_quote(&line[1..]);
    }
    split_word(line)
}

fn begins_with_quote(line: &[u8]) -> bool
    ensures { IsTrue result ↔ (slice_index line.now 0 ≡ quote) }
{
    matches!(line, [b'"', ..])
}

fn first_quote(text: &[u8]) -> Option<usize>
    ensures { result ≡ position is_quote text.now }
{
    text.iter().position(|byte| *byte == b'"')
}

/// What stands before the first double quote, and after it.
fn split_quote(text: &[u8]) -> Option<(&[u8], &[u8])>
    ensures { IsTheOne parts_of (CutsQuote text.now) result }
{
    match first_quote(text) {
        Some(end) => Some((&text[..end], &text[end + 1..])),
        None => None,
    }
}

/// The word at the front, in which no quote stands, and what follows it.
fn split_word(line: &[u8]) -> Option<(&[u8], &[u8])>
    ensures { IsTheOne parts_of (IsPlainFront line.now) result }
{
    let (word, rest) = split_blank(line);
    if !is_without(b'"', word) {
        return None;
    }
    Some((word, rest))
}
