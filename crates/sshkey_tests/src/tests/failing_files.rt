//! Inputs that fail before their end, files that can't be read and files that can't be written.

use super::failing::Failing;
use super::support::is_wanted;
use ssh_key::{AuthorizedKeys, Certificate, Error, KnownHosts, PublicKey, encoding};
use sshkey_public::{read_all, read_text};
use std::alloc::Global;
use std::fs::Files;
use std::io::ErrorKind;

const LINE: &str =
    "ssh-ed25519 AAAAC3NzaC1lZDI1NTE5AAAAILM+rvN+ot98qgEN796jTiQfZfG1KaT0PtFDJ/XFSqti a";

/// An input of these bytes that fails before one of them; short calls and interrupted ones do not.
fn failing(bytes: &[u8], before: usize, kind: ErrorKind) -> Failing<'_> {
    Failing {
        bytes,
        most: 5,
        before,
        kind,
        interrupted: false,
    }
}

/// What was read before the failure is not taken for the whole.
fn is_refused_before(alloc: Global, before: usize, kind: ErrorKind, fault: &Error) -> bool {
    let mut input = failing(LINE.as_bytes(), before, kind);
    let mut other = failing(LINE.as_bytes(), before, kind);
    read_all(alloc, &mut input).err().as_ref() == Some(fault)
        && read_text(alloc, &mut other).err().as_ref() == Some(fault)
}

#[test]
fn an_input_that_fails_before_its_end_is_refused(rt: HostRuntime) {
    let broken = Error::Io(ErrorKind::BrokenPipe);
    for before in 0..LINE.len() {
        assert!(rt;
            is_refused_before(rt.alloc(), before, ErrorKind::BrokenPipe, &broken),
            "{before}"
        );
        assert!(rt;
            is_refused_before(rt.alloc(), before, ErrorKind::OutOfMemory, &Error::Memory),
            "{before}"
        );
    }
}

fn is_read_whole(alloc: Global) -> bool {
    let mut input = failing(LINE.as_bytes(), usize::MAX, ErrorKind::Other);
    match read_text(alloc, &mut input) {
        Ok(text) => text.as_str() == LINE,
        Err(_) => false,
    }
}

/// The error of an input that is these bytes.
fn fault_of(alloc: Global, bytes: &[u8]) -> Option<Error> {
    let mut input = failing(bytes, usize::MAX, ErrorKind::Other);
    read_text(alloc, &mut input).err()
}

#[test]
fn an_input_is_read_to_its_end(rt: HostRuntime) {
    assert!(rt; is_read_whole(rt.alloc()));
    let no_text = Error::Encoding(encoding::Error::CharacterEncoding);
    assert!(rt; is_wanted(fault_of(rt.alloc(), b"text \xff"), Some(no_text)));
}

/// A folder can be opened and not be read, so what is met is the fault of a read.
fn is_no_file<R: Files>(rt: &R, alloc: Global, path: &str) -> bool {
    let fault = Some(Error::Io(ErrorKind::IsADirectory));
    PublicKey::read_openssh_file(rt, alloc, path).err() == fault
        && Certificate::read_file(rt, alloc, path).err() == fault
        && AuthorizedKeys::read_file(rt, alloc, path).err() == fault
        && KnownHosts::read_file(rt, alloc, path).err() == fault
}

#[test]
fn a_folder_is_not_read(rt: HostRuntime) {
    assert!(rt; is_no_file(&rt, rt.alloc(), "."));
}

/// The fault that is met where the key of the line is written.
fn fault_of_writing<R: Files>(rt: &R, alloc: Global, path: &str) -> Option<Error> {
    match PublicKey::from_openssh(alloc, LINE) {
        Ok(key) => key.write_openssh_file(rt, alloc, path).err(),
        Err(_) => None,
    }
}

#[test]
fn a_full_device_is_not_written(rt: HostRuntime) {
    let met = fault_of_writing(&rt, rt.alloc(), "/dev/full");
    assert!(rt; is_wanted(met, Some(Error::Io(ErrorKind::StorageFull))));
}
