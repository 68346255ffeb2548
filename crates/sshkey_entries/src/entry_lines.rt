//! The entries of a text, as parts of its lines.

ghost use Rattle.std.specs.Prelude.{◌≡◌, List, ℕ, map};
ghost use Rattle.std.specs.Iterator.{YieldsFirstRef, item_count};
ghost use Rattle.std.specs.List.{before_first};
ghost use Rattle.std.specs.Str.Iter.{lines_rest};
ghost use Rattle.sshkey_entries.specs.Entries.{is_hash, uncommented, entry_lines, entries};
ghost use Rattle.sshkey_entries.specs.Answers.{AreLineParts, YieldsAnswers};

use std::marker::Model;
use std::str::Lines;

fn before_hash(line: &str) -> &str
    ensures { result.now ≡ before_first is_hash line.now }
{
    match line.split_once('#') {
        Some((front, _)) => front,
        None => line,
    }
}

/// The line up to its first `#`, without the white space at its end, and what stands after that.
fn split_entry(line: &str) -> (&str, &str)
    ensures { AreLineParts line.now result }
{
    let entry = before_hash(line).trim_end();
    line.split_at(entry.len())
}

/// The lines of a text that have an entry: of each the entry, which is the line up to its first `#`
/// without the white space at its end, and what stands after the entry.
///
/// Contracts see the list of the lines that are left.
#[derive(Drop)]
pub struct EntryLines<'a> {
    lines: Lines<'a>,
}

impl<'a> Model for EntryLines<'a> {
    ghost Value = { List (List ℕ) };

    ghost view = { λ s. entry_lines (lines_rest s.lines) };
}

impl<'a> EntryLines<'a> {
    /// The lines of a text. Does not allocate.
    pub fn new(text: &'a str) -> EntryLines<'a>
        ensures { result ≡ entry_lines text.now }
    {
        EntryLines {
            lines: text.lines(),
        }
    }
}

impl<'a> Iterator for EntryLines<'a> {
    type Item = (&'a str, &'a str);

    ghost next_gives = { YieldsAnswers AreLineParts };

    ghost remaining = { item_count (λ left. left) };

    fn next(&mut self) -> Option<(&'a str, &'a str)> {
        'lines: while let Some(line) = self.lines.next() {
            let (entry, rest) = split_entry(line);
            if !entry.is_empty() {
                return Some((entry, rest));
            }
        }
        None
    }
}

/// The entries of a text, each a part of it: its lines up to their first `#`, without the white
/// space at their end, where something is left.
///
/// Contracts see the list of those that are left.
#[derive(Drop)]
pub struct EntryTexts<'a> {
    lines: EntryLines<'a>,
}

impl<'a> Model for EntryTexts<'a> {
    ghost Value = { List (List ℕ) };

    ghost view = { λ s. map uncommented s.lines };
}

impl<'a> EntryTexts<'a> {
    /// The entries of a text. Does not allocate.
    pub fn new(text: &'a str) -> EntryTexts<'a>
        ensures { result ≡ entries text.now }
    {
        EntryTexts {
            lines: EntryLines::new(text),
        }
    }
}

impl<'a> Iterator for EntryTexts<'a> {
    type Item = &'a str;

    ghost next_gives = { YieldsFirstRef (λ left. left) };

    ghost remaining = { item_count (λ left. left) };

    fn next(&mut self) -> Option<&'a str> {
        let (entry, _) = self.lines.next()?;
        Some(entry)
    }
}
