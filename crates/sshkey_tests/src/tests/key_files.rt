//! Public keys in files.

use super::support::is_wanted;
use ssh_key::{Error, PublicKey};
use std::alloc::Global;
use std::fs::{self, Files};
use std::io::ErrorKind;

const LINE: &str =
    "ssh-ed25519 AAAAC3NzaC1lZDI1NTE5AAAAILM+rvN+ot98qgEN796jTiQfZfG1KaT0PtFDJ/XFSqti user@example.com";

/// The fault that is met where the file is read.
fn fault<R: Files>(rt: &R, alloc: Global, path: &str) -> Option<Error> {
    PublicKey::read_openssh_file(rt, alloc, path).err()
}

#[test]
fn a_missing_file_is_not_found(rt: HostRuntime) {
    let found = fault(&rt, rt.alloc(), "no_such_key.pub");
    assert!(rt; is_wanted(found, Some(Error::Io(ErrorKind::NotFound))));
}

/// The fault that is met where the key of the line is written.
fn fault_of_writing<R: Files>(rt: &R, alloc: Global, path: &str) -> Option<Error> {
    match PublicKey::from_openssh(alloc, LINE) {
        Ok(key) => key.write_openssh_file(rt, alloc, path).err(),
        Err(_) => None,
    }
}

#[test]
fn a_file_in_no_folder_is_not_written(rt: HostRuntime) {
    let met = fault_of_writing(&rt, rt.alloc(), "no_such_folder/key.pub");
    assert!(rt; is_wanted(met, Some(Error::Io(ErrorKind::NotFound))));
}

#[test]
fn a_file_that_is_no_text_is_refused(rt: HostRuntime) {
    assert!(rt; fs::write(&rt, "no_text.pub", b"\xff").is_ok());
    let found = fault(&rt, rt.alloc(), "no_text.pub");
    assert!(rt; is_wanted(found, Some(Error::Io(ErrorKind::InvalidData))));
    assert!(rt; fs::remove_file(&rt, "no_text.pub").is_ok());
}
