//! An input and an output that fail, and an output that counts calls.

use std::io::{self, ErrorKind, Read, Write};

/// Gives at most `most` bytes a call. Each other call is interrupted, and once it has given
/// `before` bytes it fails with `kind`.
#[derive(Drop)]
pub(crate) struct Failing<'a> {
    pub(crate) bytes: &'a [u8],
    pub(crate) most: usize,
    pub(crate) before: usize,
    pub(crate) kind: ErrorKind,
    pub(crate) interrupted: bool,
}

impl Read for Failing<'_> {
    fn read(&mut self, buffer: &mut [u8]) -> io::Result<usize> {
        self.interrupted = !self.interrupted;
        if self.interrupted {
            return Err(io::Error::from(ErrorKind::Interrupted));
        }
        if self.before == 0 {
            return Err(io::Error::from(self.kind));
        }
        let bytes = self.bytes;
        let count = bytes
            .len()
            .min(buffer.len())
            .min(self.most)
            .min(self.before);
        let (front, rest) = bytes.split_at(count);
        buffer[..count].copy_from_slice(front);
        self.bytes = rest;
        self.before -= count;
        Ok(count)
    }
}

/// Takes at most `most` bytes a call. Each other call is interrupted, and once it holds `room`
/// bytes it fails, or takes none.
#[derive(Drop)]
pub(crate) struct Narrow {
    pub(crate) taken: Vec<u8>,
    pub(crate) most: usize,
    pub(crate) room: usize,
    pub(crate) is_full: bool,
    pub(crate) interrupted: bool,
}

impl Write for Narrow {
    fn write(&mut self, bytes: &[u8]) -> io::Result<usize> {
        self.interrupted = !self.interrupted;
        if self.interrupted {
            return Err(io::Error::from(ErrorKind::Interrupted));
        }
        let left = self.room.saturating_sub(self.taken.len());
        if left == 0 && !self.is_full {
            return Err(io::Error::from(ErrorKind::BrokenPipe));
        }
        let count = bytes.len().min(self.most).min(left);
        self.taken.extend_from_slice(&bytes[..count])?;
        Ok(count)
    }

    fn flush(&mut self) -> io::Result<()> {
        Ok(())
    }
}

/// Takes all bytes, and counts them and the calls of `write`.
#[derive(Drop)]
pub(crate) struct Counted {
    pub(crate) bytes: usize,
    pub(crate) calls: usize,
}

impl Write for Counted {
    fn write(&mut self, bytes: &[u8]) -> io::Result<usize> {
        self.bytes = self.bytes.saturating_add(bytes.len());
        self.calls = self.calls.saturating_add(1);
        Ok(bytes.len())
    }

    fn flush(&mut self) -> io::Result<()> {
        Ok(())
    }
}
