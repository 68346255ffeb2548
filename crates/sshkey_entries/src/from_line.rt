//! Entries that are read from lines.

ghost use Rattle.std.specs.Prelude.{ℕ, List};
ghost use Rattle.sshkey_base.specs.declared.error.Error.{Error};
ghost use Rattle.sshkey_entries.specs.Entries.{entries};
ghost use Rattle.sshkey_entries.specs.Answers.{AsksEntries, AsksEntry, ReadsEntries, ReadsEntry, ReadsFile, RefusesFor};

use crate::entry_lines::EntryTexts;
use sshkey_base::Result;
use sshkey_public::text_of_file;
use std::alloc::Global;
use std::fs::Files;

/// An entry of a file, which one line spells.
pub trait FromLine: Drop + Sized {
    /// What an entry means.
    ghost Meaning: { Type 0 };

    /// The meaning of an entry.
    ghost means: { Self → Meaning };

    /// The line spells the entry.
    ghost IsEntry: { List ℕ → Meaning → Type 0 };

    /// The error is one that names a fault of the line, which spells no entry.
    ghost HasFault: { List ℕ → Error → Type 0 };

    /// Reading the line needs memory.
    ghost Needs: { List ℕ → Type 0 };

    /// The entry of a line, as it stands. Unless memory runs out, it fails exactly if the line is
    /// no entry, for a fault that it has.
    fn from_line(alloc: Global, line: &str) -> Result<Self>
        ensures reads { ReadsEntry means IsEntry line.now result }
        ensures fault { RefusesFor HasFault line.now result }
        ensures asks { AsksEntry Needs line.now result };
}

/// All entries of a text, in order, or the error of the first line that is no entry.
///
/// No line after that line is read. So `Memory` means that an allocation failed, and for a text
/// whose first line is no entry, that reading that line needs memory.
pub fn entries_of_text<E: FromLine>(alloc: Global, text: &str) -> Result<Vec<E>>
    ensures reads { ReadsEntries E.means E.IsEntry E.HasFault (entries text.now) result }
    ensures asks { AsksEntries E.IsEntry E.Needs (entries text.now) result }
{
    let mut found = Vec::new(alloc);
    for line in EntryTexts::new(text) {
        found.push(E::from_line(alloc, line)?)?;
    }
    Ok(found)
}

/// All entries of the text that a file holds, in order.
///
/// Fails with the errors of `sshkey_public::text_of_file`, and then with those of
/// `entries_of_text`.
pub fn entries_of_file<R: Files, E: FromLine>(rt: &R, alloc: Global, path: &str) -> Result<Vec<E>>
    ensures { ReadsFile E.means E.IsEntry result }
{
    let text = text_of_file(rt, alloc, path)?;
    entries_of_text(alloc, text.as_str())
}
