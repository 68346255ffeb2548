//! How often an input is read: no contract can count that.

use ssh_key::Error;
use sshkey_public::read_within;
use std::alloc::Global;
use std::io::{self, ErrorKind, Read};

/// Gives one byte a read until none is left, and counts how often it is read.
#[derive(Drop)]
struct Counted {
    left: u64,
    reads: u64,
}

impl Read for Counted {
    fn read(&mut self, buffer: &mut [u8]) -> io::Result<usize> {
        self.reads = self.reads.saturating_add(1);
        if self.left == 0 || buffer.is_empty() {
            return Ok(0);
        }
        self.left -= 1;
        buffer[0] = b'a';
        Ok(1)
    }
}

/// An input of that many bytes is read whole in that many reads, and makes that many.
fn is_read(alloc: Global, bytes: u64, most_reads: u64, reads: u64) -> bool {
    let mut input = Counted {
        left: bytes,
        reads: 0,
    };
    let is_whole = match read_within(alloc, &mut input, most_reads) {
        Ok(read) => u64::try_from(read.len()) == Ok(bytes),
        Err(_) => false,
    };
    is_whole && input.reads == reads
}

/// It is refused after as many reads as are allowed.
fn is_refused(alloc: Global, bytes: u64, most_reads: u64) -> bool {
    let mut input = Counted {
        left: bytes,
        reads: 0,
    };
    read_within(alloc, &mut input, most_reads).err() == Some(Error::Io(ErrorKind::Other))
        && input.reads == most_reads
}

#[test]
fn an_input_is_read_as_often_as_it_takes(rt: HostRuntime) {
    assert!(rt; is_read(rt.alloc(), 0, 1, 1));
    assert!(rt; is_read(rt.alloc(), 2, 3, 3));
    assert!(rt; is_read(rt.alloc(), 2, 100, 3));
}

#[test]
fn and_no_more_often_than_is_allowed(rt: HostRuntime) {
    assert!(rt; is_refused(rt.alloc(), 0, 0));
    assert!(rt; is_refused(rt.alloc(), 3, 3));
    assert!(rt; is_refused(rt.alloc(), 1000, 3));
}
