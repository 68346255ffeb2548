//! The lines of a text of any bytes that are neither empty nor comments.

ghost use Rattle.std.specs.Prelude.{◌≡◌, ℕ, List};
ghost use Rattle.std.specs.Iterator.{YieldsFirstRef, item_count};
ghost use Rattle.sshkey_entries.specs.Fields.{filled_lines};

use crate::bytes::{is_filled, skip_blanks, split_line};
use std::marker::Model;

/// The lines of a text without the spaces and tabs at their front, but for those that are empty
/// then, and comments, which a `#` begins. Each is a part of the text, of which nothing is asked.
///
/// Contracts see the list of those that are left.
#[derive(Drop)]
pub struct NonBlankByteLines<'a> {
    rest: &'a [u8],
}

impl<'a> Model for NonBlankByteLines<'a> {
    ghost Value = { List (List ℕ) };

    ghost view = { λ s. filled_lines s.rest.now };
}

impl<'a> NonBlankByteLines<'a> {
    /// The lines of a text. Does not allocate.
    pub fn new(text: &'a [u8]) -> NonBlankByteLines<'a>
        ensures { result ≡ filled_lines text.now }
    {
        NonBlankByteLines { rest: text }
    }
}

impl<'a> Iterator for NonBlankByteLines<'a> {
    type Item = &'a [u8];

    ghost next_gives = { YieldsFirstRef (λ left. left) };

    ghost remaining = { item_count (λ left. left) };

    fn next(&mut self) -> Option<&'a [u8]> {
        'lines: while !self.rest.is_empty() {
            let (line, rest) = split_line(self.rest);
            self.rest = rest;
            let filled = skip_blanks(line);
            if is_filled(filled) {
                return Some(filled);
            }
        }
        None
    }
}
