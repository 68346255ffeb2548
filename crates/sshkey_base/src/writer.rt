//! Writers of the wire encoding.

ghost use Rattle.std.specs.Prelude.{◌≡◌, ◌≤◌, [], None, Some, IfErr, OnErr, length};
ghost use Rattle.sshkey_base.specs.declared.encoding.Error as narrow;
ghost use Rattle.sshkey_base.specs.declared.encoding.Error.TheVariants.{Memory, Length};
ghost use Rattle.sshkey_base.specs.Sink.{Sink, Writes};

use crate::encoding::{Error, Result};
use std::fmt;

/// A sink of bytes that grows at its end.
pub trait Writer: Sized {
    /// What was written, and how much there is room for.
    ghost sink: { Self → Sink };

    /// The errors of a write that fails.
    ghost fault: { narrow.Error → Type 0 };

    /// Adds the bytes at the end.
    ///
    /// An error is the writer's own; a writer with bounded room fails only if the bytes exceed it.
    /// After an error it holds what it held before, and a prefix of the bytes.
    fn write(&mut self, bytes: &[u8]) -> Result<()>
        ensures { Writes fault (sink self.old) bytes.now result (sink self.new) };
}

/// A vector that grows. Fails with `Memory` if it can't.
#[tactic(auto, using(crate::proofs::Writing::wrote_none))]
impl Writer for Vec<u8> {
    ghost sink = { λ v. record { written = v.items; limit = None } };

    ghost fault = { λ e. e ≡ Memory };

    fn write(&mut self, bytes: &[u8]) -> Result<()> {
        self.extend_from_slice(bytes)?;
        Ok(())
    }
}

/// A slice that is filled from its front. The bytes after what is written stay as they were.
#[derive(Drop)]
pub struct SliceWriter<'s> {
    slice: &'s mut [u8],
    len: usize,
    ghost within: { len ≤ length slice.now },
}

impl<'s> SliceWriter<'s> {
    ghost use Rattle.sshkey_base.specs.SliceWriter.{slice_sink};

    /// A writer into the slice, which stays as it is. Nothing is written yet, and all of the slice
    /// is room.
    pub fn new(slice: &'s mut [u8]) -> SliceWriter<'s>
        ensures empty { slice_sink result
            ≡ record { written = []; limit = Some (length slice.old) } }
        ensures same_reference { result.slice.ghost_name ≡ slice.entry.ghost_name }
        ensures value { result.slice.now ≡ slice.old }
    {
        SliceWriter { slice, len: 0 }
    }

    /// What was written.
    pub fn written(&self) -> &[u8]
        ensures { result.now ≡ (slice_sink self.now).written }
    {
        &self.slice[..self.len]
    }
}

/// Shows how many bytes are written and how many the slice has, and none of them: they may be
/// secret.
impl fmt::Debug for SliceWriter<'_> {
    fn fmt<W: fmt::Write>(&self, f: &mut fmt::Formatter<W>) -> fmt::Result {
        f.debug_struct("SliceWriter")
            .field("len", &self.len)
            .field("room", &self.slice.len())
            .finish_non_exhaustive()
    }
}

/// Fails with `Length` if the bytes exceed the rest of the slice; then the slice is as it was. The
/// bytes after what is written are as they were in any case.
#[tactic(auto, using(crate::proofs::Writing::wrote_none))]
impl Writer for SliceWriter<'_> {
    ghost use Rattle.sshkey_base.specs.SliceWriter.{slice_sink, KeepsAfter};

    ghost sink = { slice_sink };

    ghost fault = { λ e. e ≡ Length };

    fn write(&mut self, bytes: &[u8]) -> Result<()>
        ensures writes { Writes (λ e. e ≡ Length) (slice_sink self.old)
            bytes.now result (slice_sink self.new) }
        ensures unwritten { IfErr result (λ _. slice_sink self.new ≡ slice_sink self.old) }
        ensures same_reference { self.new.slice.ghost_name ≡ self.old.slice.ghost_name }
        ensures unchanged { OnErr result (self.new.slice.now ≡ self.old.slice.now) }
        ensures after { KeepsAfter self.old self.new }
    {
        let slice = &mut *self.slice;
        let len = self.len;
        if slice.len() - len < bytes.len() {
            return Err(Error::Length);
        }
        let end = len + bytes.len();
        slice[len..end].copy_from_slice(bytes);
        self.len = end;
        Ok(())
    }
}
