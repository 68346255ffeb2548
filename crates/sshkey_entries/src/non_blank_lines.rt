//! The lines of a text that are neither empty nor comments.

ghost use Rattle.std.specs.Prelude.{◌≡◌, ℕ, List};
ghost use Rattle.std.specs.Iterator.{YieldsFirstRef, item_count};
ghost use Rattle.std.specs.Str.Iter.{lines_rest};
ghost use Rattle.sshkey_entries.specs.Fields.{filled_lines, is_filled};

use crate::blanks::skip_blanks;
use std::marker::Model;
use std::str::Lines;

fn is_filled(text: &str) -> bool
    ensures { result ≡ is_filled text.now }
{
    !text.is_empty() && !text.starts_with('#')
}

/// The lines of a text without the spaces and tabs at their front, but for those that are empty
/// then, and comments, which a `#` begins. Each is a part of the text.
///
/// Contracts see the list of those that are left.
#[derive(Drop)]
pub struct NonBlankLines<'a> {
    lines: Lines<'a>,
}

impl<'a> Model for NonBlankLines<'a> {
    ghost Value = { List (List ℕ) };

    ghost view = { λ s. filled_lines (lines_rest s.lines) };
}

impl<'a> NonBlankLines<'a> {
    /// The lines of a text. Does not allocate.
    pub fn new(text: &'a str) -> NonBlankLines<'a>
        ensures { result ≡ filled_lines text.now }
    {
        NonBlankLines {
            lines: text.lines(),
        }
    }
}

impl<'a> Iterator for NonBlankLines<'a> {
    type Item = &'a str;

    ghost next_gives = { YieldsFirstRef (λ left. left) };

    ghost remaining = { item_count (λ left. left) };

    fn next(&mut self) -> Option<&'a str> {
        'lines: while let Some(line) = self.lines.next() {
            let filled = skip_blanks(line);
            if is_filled(filled) {
                return Some(filled);
            }
        }
        None
    }
}
