//! Entries of authorized_keys and their parts.

use super::support::{is_equal, is_text};
use sshkey_authorized_keys::{ConfigOpts, Entry};
use sshkey_public::PublicKey;
use std::alloc::Global;
use std::convert::AsStr;

const LINE: &str =
    "no-pty ssh-ed25519 AAAAC3NzaC1lZDI1NTE5AAAAILM+rvN+ot98qgEN796jTiQfZfG1KaT0PtFDJ/XFSqti a";

const KEY: &str =
    "ssh-ed25519 AAAAC3NzaC1lZDI1NTE5AAAAILM+rvN+ot98qgEN796jTiQfZfG1KaT0PtFDJ/XFSqti a";

/// The options of the line become `no-pty`.
fn gives_options(alloc: Global) -> bool {
    match Entry::from_line(alloc, LINE) {
        Ok(entry) => AsStr::as_str(&ConfigOpts::from(entry)) == "no-pty",
        Err(_) => false,
    }
}

/// The key of the line becomes that of the other.
fn gives_key(alloc: Global) -> bool {
    match Entry::from_line(alloc, LINE) {
        Ok(entry) => is_text(PublicKey::from(entry).to_openssh(alloc), KEY),
        Err(_) => false,
    }
}

/// The entry of the key has no options, and is that of the key's line.
fn has_no_options(alloc: Global, key: PublicKey) -> bool {
    let entry = Entry::from_public_key(alloc, key);
    entry.config_opts().is_empty() && is_equal(Entry::from_line(alloc, KEY), &entry) == Some(true)
}

fn key_has_no_options(alloc: Global) -> bool {
    match PublicKey::from_openssh(alloc, KEY) {
        Ok(key) => has_no_options(alloc, key),
        Err(_) => false,
    }
}

/// Equal to its copy, and to no entry without options.
fn is_compared(alloc: Global) -> bool {
    match Entry::from_line(alloc, LINE) {
        Ok(entry) => {
            is_equal(entry.try_clone(alloc), &entry) == Some(true)
                && is_equal(Entry::from_line(alloc, KEY), &entry) == Some(false)
        }
        Err(_) => false,
    }
}

#[test]
fn an_entry_gives_its_parts(rt: HostRuntime) {
    assert!(rt; gives_options(rt.alloc()));
    assert!(rt; gives_key(rt.alloc()));
}

#[test]
fn an_entry_of_a_key_has_no_options(rt: HostRuntime) {
    assert!(rt; key_has_no_options(rt.alloc()));
}

#[test]
fn entries_are_compared(rt: HostRuntime) {
    assert!(rt; is_compared(rt.alloc()));
}
