//! Files that are no authorized_keys and no known_hosts.

use super::support::is_wanted;
use ssh_key::{AuthorizedKeys, Error, KnownHosts, Result};
use std::fs;
use std::io::ErrorKind;

/// The fault for which a file was refused.
fn fault<E: Drop>(answer: Result<Vec<E>>) -> Option<Error> {
    answer.err()
}

#[test]
fn a_missing_file_is_not_found(rt: HostRuntime) {
    let keys = fault(AuthorizedKeys::read_file(&rt, rt.alloc(), "no_such_entries"));
    assert!(rt; is_wanted(keys, Some(Error::Io(ErrorKind::NotFound))));
    let hosts = fault(KnownHosts::read_file(&rt, rt.alloc(), "no_such_entries"));
    assert!(rt; is_wanted(hosts, Some(Error::Io(ErrorKind::NotFound))));
}

#[test]
fn a_file_that_is_no_text_is_refused(rt: HostRuntime) {
    assert!(rt; fs::write(&rt, "no_entries", b"\xff").is_ok());
    let keys = fault(AuthorizedKeys::read_file(&rt, rt.alloc(), "no_entries"));
    assert!(rt; is_wanted(keys, Some(Error::Io(ErrorKind::InvalidData))));
    let hosts = fault(KnownHosts::read_file(&rt, rt.alloc(), "no_entries"));
    assert!(rt; is_wanted(hosts, Some(Error::Io(ErrorKind::InvalidData))));
    assert!(rt; fs::remove_file(&rt, "no_entries").is_ok());
}
