//! What is shown of the entries of a file, and written.

ghost use Rattle.sshkey_entries.specs.AuthorizedKeys.{IsAuthorizedKey, authorized_text};
ghost use Rattle.sshkey_entries.specs.KnownHosts.{IsKnownHost, known_text};
ghost use Rattle.std.specs.Prelude.{string_bytes};
ghost use Rattle.sshkey_tool.specs.Outcomes.{PushesEntry, PushesLine, RefusesAfter, RefusesEntry, WritesEntries, WritesEntry, WritesEntryOf};

use crate::command::EntryFile;
use crate::output::{is_written, write_line};
use crate::refusal::{refuse, refused_line};
use sshkey_authorized_keys::Entry as AuthorizedKey;
use sshkey_base::Error;
use sshkey_entries::EntryTexts;
use sshkey_known_hosts::Entry as KnownHost;
use std::alloc::{AllocError, Global};
use std::io::Write;

/// At least this many bytes of lines are written at once, but for the last.
const PIECE: usize = 0x1_0000;

/// The text of an entry of authorized_keys.
fn authorized_text(alloc: Global, line: &str) -> Result<String, Error>
    ensures { WritesEntry IsAuthorizedKey authorized_text line.now result }
{
    let entry = AuthorizedKey::from_line(alloc, line)?;
    entry.to_string(alloc)
}

/// The text of an entry of known_hosts.
fn known_text(alloc: Global, line: &str) -> Result<String, Error>
    ensures { WritesEntry IsKnownHost known_text line.now result }
{
    let entry = KnownHost::from_line(alloc, line)?;
    entry.to_string(alloc)
}

/// The text of an entry of such a file.
fn entry_text(alloc: Global, file: EntryFile, line: &str) -> Result<String, Error>
    ensures { WritesEntryOf file line.now result }
{
    match file {
        EntryFile::AuthorizedKeys => authorized_text(alloc, line),
        EntryFile::KnownHosts => known_text(alloc, line),
    }
}

/// The line that says why an entry is rejected; or memory ran out.
fn refused_entry(alloc: Global, error: &Error) -> Result<String, Error>
    ensures { RefusesEntry error.now result }
{
    match error {
        Error::Memory => Err(Error::Memory),
        error => Ok(refused_line(alloc, error)?),
    }
}

/// Adds a text and a line end after the lines, or nothing where memory runs out.
fn push_line(lines: &mut String, text: &str) -> Result<(), AllocError>
    ensures { PushesLine (string_bytes lines.old) (string_bytes lines.new) text.now result }
{
    lines.reserve(text.len().saturating_add(1))?;
    lines.push_str(text)?;
    lines.push('\n')
}

/// Adds the line of an entry after the lines: its text, or why it is rejected. Says whether it is
/// rejected. Adds nothing where memory runs out.
fn push_entry(
    alloc: Global,
    file: EntryFile,
    entry: &str,
    lines: &mut String,
) -> Result<bool, Error>
    ensures { PushesEntry file entry.now
        (string_bytes lines.old) (string_bytes lines.new) result }
{
    match entry_text(alloc, file, entry) {
        Ok(text) => {
            push_line(lines, &text)?;
            Ok(false)
        }
        Err(error) => {
            let line = refused_entry(alloc, &error)?;
            lines.push_str(&line)?;
            Ok(true)
        }
    }
}

/// Writes the lines that were made before the machine failed, and the line that says why.
fn refuse_after<W: Write>(alloc: Global, lines: &str, error: &Error, output: &mut W) -> u8
    ensures { RefusesAfter error.now
        (W.contents output.old) (W.contents output.new) lines.now result }
{
    if is_written(output, lines.as_bytes()) {
        refuse(alloc, error, output)
    } else {
        1
    }
}

/// Writes the line of each entry of a text, one after the other, and says by a status whether one
/// of them is rejected. The first line that can't be made or written is the end.
///
/// The lines are kept until they have `PIECE` bytes, and are written then: so each write but the
/// last is asked to take at least that many.
pub(crate) fn write_entries<W: Write>(
    alloc: Global,
    file: EntryFile,
    text: &str,
    output: &mut W,
) -> u8
    ensures { WritesEntries file text.now (W.contents output.old) (W.contents output.new) result }
{
    let mut lines = String::new(alloc);
    let mut status = 0;
    for entry in EntryTexts::new(text) {
        let refused = match push_entry(alloc, file, entry, &mut lines) {
            Ok(refused) => refused,
            Err(error) => return refuse_after(alloc, &lines, &error, output),
        };
        if refused {
            status = 1;
        }
        if lines.len() >= PIECE {
            if !is_written(output, lines.as_bytes()) {
                return 1;
            }
            lines.clear();
        }
    }
    write_line(output, lines.as_bytes(), status)
}
