//! Questions about entry files as OpenSSH reads them.

use crate::entries::{host_parts, key_parts};
use sshkey_authorized_keys::{AuthorizedKeys, Entry, OpenSshEntry};
use sshkey_base::Result;
use sshkey_known_hosts::KnownHosts;
use std::alloc::Global;

fn parts(alloc: Global, entry: &OpenSshEntry) -> Result<String> {
    let key = key_parts(alloc, entry.public_key())?;
    let options = entry.options().as_str();
    Ok(format!(in alloc; "{options} | {key}")?)
}

/// The parts of an entry of authorized_keys, with ` | ` between.
pub(crate) fn key(alloc: Global, line: &str) -> Result<String> {
    parts(alloc, &Entry::from_line_openssh(alloc, line)?)
}

/// The parts of an entry of known_hosts, with ` | ` between.
pub(crate) fn host(alloc: Global, line: &str) -> Result<String> {
    let entry = sshkey_known_hosts::Entry::from_line_openssh(alloc, line)?;
    host_parts(alloc, &entry)
}

/// Adds what is shown of an entry, or why it is refused, after `; ` if something stands there.
fn add_entry(alloc: Global, shown: &mut String, entry: Result<String>) -> Result<()> {
    if !shown.is_empty() {
        shown.push_str("; ")?;
    }
    match entry {
        Ok(text) => shown.push_str(&text)?,
        Err(error) => {
            let why = format!(in alloc; "refused: {error}")?;
            shown.push_str(&why)?;
        }
    }
    Ok(())
}

fn parts_of(alloc: Global, entry: Result<OpenSshEntry>) -> Result<String> {
    parts(alloc, &entry?)
}

fn host_parts_of(alloc: Global, entry: Result<sshkey_known_hosts::Entry>) -> Result<String> {
    host_parts(alloc, &entry?)
}

/// The entries of a text of authorized_keys, with `; ` between.
pub(crate) fn keys(alloc: Global, text: &str) -> Result<String> {
    let mut shown = String::new(alloc);
    for entry in AuthorizedKeys::openssh(alloc, text) {
        add_entry(alloc, &mut shown, parts_of(alloc, entry))?;
    }
    Ok(shown)
}

/// The entries of a text of known_hosts, with `; ` between.
pub(crate) fn hosts(alloc: Global, text: &str) -> Result<String> {
    let mut shown = String::new(alloc);
    for entry in KnownHosts::openssh(alloc, text) {
        add_entry(alloc, &mut shown, host_parts_of(alloc, entry))?;
    }
    Ok(shown)
}
