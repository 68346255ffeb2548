//! Whether an entry is read back from its line.

ghost use Rattle.std.specs.Prelude.{◌≡◌, IsTrue};
ghost use Rattle.sshkey_base.specs.Causes.{cause, NoMemory};
ghost use Rattle.sshkey_entries.specs.AuthorizedKeys.{IsAuthorizedKey};
ghost use Rattle.sshkey_entries.specs.OpenSshLines.{IsAuthorizedLine};
ghost use Rattle.sshkey_authorized_keys.specs.AuthorizedEntries.{IsOfKey, authorized_key_of, IsReadAs, TellsNot, TellsWhether};
ghost use Rattle.sshkey_authorized_keys.specs.OpenSshEntries.{IsOfOpenSshKey, openssh_entry_of};

use crate::entry::Entry;
use crate::laws::equal_authorized_keys;
use crate::openssh::OpenSshEntry;
use sshkey_base::{Error, Result};
use sshkey_public::is_one_line;
use sshkey_public::laws::compared_public_keys;
use std::alloc::Global;

/// What a refusal of a line tells: there is no entry, or memory ran out.
fn no_entry(error: &Error) -> Result<bool>
    ensures { TellsNot (cause error.now ≡ NoMemory) result }
{
    if error.is_memory() {
        return Err(Error::Memory);
    }
    Ok(false)
}

fn is_same(read: &Entry, entry: &Entry) -> bool
    requires { IsOfKey read.now }
    ensures same { IsTrue result → authorized_key_of read.now ≡ authorized_key_of entry.now }
    ensures every { IsOfKey entry.now → authorized_key_of read.now ≡ authorized_key_of entry.now
        → IsTrue result }
{
    equal_authorized_keys();
    *read == *entry
}

/// Whether it is the entry of the line that is read plainly.
fn is_read_plainly(alloc: Global, line: &str, entry: &Entry) -> Result<bool>
    ensures { TellsWhether (IsAuthorizedKey line.now (authorized_key_of entry.now)) result }
{
    match Entry::from_line(alloc, line) {
        Ok(read) => Ok(is_same(&read, entry)),
        Err(error) => no_entry(&error),
    }
}

fn is_openssh_entry(read: &OpenSshEntry, entry: &Entry) -> bool
    requires { IsOfOpenSshKey read.now }
    ensures same { IsTrue result → openssh_entry_of read.now ≡ authorized_key_of entry.now }
    ensures every { IsOfKey entry.now → openssh_entry_of read.now ≡ authorized_key_of entry.now
        → IsTrue result }
{
    compared_public_keys();
    read.options().as_str() == entry.config_opts().as_str()
        && *read.public_key() == *entry.public_key()
}

/// Whether it is the entry of the line as sshd(8) reads it.
fn is_read_by_openssh(alloc: Global, line: &str, entry: &Entry) -> Result<bool>
    ensures { TellsWhether (IsAuthorizedLine line.now (authorized_key_of entry.now)) result }
{
    match Entry::from_line_openssh(alloc, line) {
        Ok(read) => Ok(is_openssh_entry(&read, entry)),
        Err(error) => no_entry(&error),
    }
}

/// Whether the line is one, and is read as the entry, both plainly and as sshd(8) reads it.
pub(crate) fn is_read_as(alloc: Global, line: &str, entry: &Entry) -> Result<bool>
    ensures { TellsWhether (IsReadAs line.now (authorized_key_of entry.now)) result }
{
    if !is_one_line(line) {
        return Ok(false);
    }
    if !is_read_plainly(alloc, line, entry)? {
        return Ok(false);
    }
    is_read_by_openssh(alloc, line, entry)
}
