//! Entries of known_hosts and their parts.

use super::support::{is_equal, is_text};
use sshkey_known_hosts::{Entry, HostPatterns, Marker};
use sshkey_public::PublicKey;
use std::alloc::Global;
use std::convert::AsStr;

const LINE: &str =
    "@revoked a,b ssh-ed25519 AAAAC3NzaC1lZDI1NTE5AAAAILM+rvN+ot98qgEN796jTiQfZfG1KaT0PtFDJ/XFSqti c";

const OTHER: &str =
    "a,b ssh-ed25519 AAAAC3NzaC1lZDI1NTE5AAAAILM+rvN+ot98qgEN796jTiQfZfG1KaT0PtFDJ/XFSqti c";

const KEY: &str =
    "ssh-ed25519 AAAAC3NzaC1lZDI1NTE5AAAAILM+rvN+ot98qgEN796jTiQfZfG1KaT0PtFDJ/XFSqti c";

fn gives_marker(alloc: Global) -> bool {
    match Entry::from_line(alloc, LINE) {
        Ok(entry) => Option::<Marker>::from(entry) == Some(Marker::Revoked),
        Err(_) => false,
    }
}

fn gives_hosts(alloc: Global) -> bool {
    match Entry::from_line(alloc, LINE) {
        Ok(entry) => is_text(HostPatterns::from(entry).to_string(alloc), "a,b"),
        Err(_) => false,
    }
}

fn gives_key(alloc: Global) -> bool {
    match Entry::from_line(alloc, LINE) {
        Ok(entry) => is_text(PublicKey::from(entry).to_openssh(alloc), KEY),
        Err(_) => false,
    }
}

/// Equal to its copy, and to no entry without a marker.
fn is_compared(alloc: Global) -> bool {
    match Entry::from_line(alloc, LINE) {
        Ok(entry) => {
            is_equal(entry.try_clone(alloc), &entry) == Some(true)
                && is_equal(Entry::from_line(alloc, OTHER), &entry) == Some(false)
        }
        Err(_) => false,
    }
}

#[test]
fn an_entry_gives_its_parts(rt: HostRuntime) {
    assert!(rt; gives_marker(rt.alloc()));
    assert!(rt; gives_hosts(rt.alloc()));
    assert!(rt; gives_key(rt.alloc()));
}

#[test]
fn entries_are_compared(rt: HostRuntime) {
    assert!(rt; is_compared(rt.alloc()));
}

#[test]
fn a_marker_is_a_text(rt: HostRuntime) {
    assert!(rt; AsStr::as_str(&Marker::CertAuthority) == "@cert-authority");
}
