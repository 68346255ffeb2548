//! Values that are written as bytes.

ghost use Rattle.std.specs.Prelude.{◌≤◌, ◌<◌, ◌+◌, ◌^◌, ℕ, IfOk};
ghost use Rattle.std.specs.Int.{w8, w32, w64};
ghost use Rattle.sshkey_model.specs.Parts.{Parts, number, box, ◌&◌};
ghost use Rattle.sshkey_model.specs.Texts.{string};
ghost use Rattle.sshkey_base.specs.Sink.{Encodes, Measures, MakesBytes, IsLength};

use crate::bytes::Bytes;
use crate::encoding::{Error, Result};
use crate::writer::Writer;
use std::alloc::Global;

/// A value that has bytes.
#[tactic(auto, using(crate::proofs::Writing::measuring_leaves))]
pub trait Encode {
    /// Its normal form: the parts that are written.
    ghost normal: { Self → Parts };

    /// No value that fits has more bytes.
    ghost max_len: { ℕ };

    /// How many bytes the normal form has. Fails with `Length` exactly if a string in it would
    /// exceed 2^32 - 1 bytes. Does not allocate.
    fn encoded_len(&self) -> Result<usize>
        ensures measures { Measures (normal self.now) result }
        ensures short { IfOk result (λ n. n ≤ max_len) };

    /// Writes the bytes of the normal form.
    ///
    /// Fails with `Length` if a string in it would exceed 2^32 - 1 bytes; any other error is the
    /// writer's own. After an error the writer holds what it held before, and a prefix of the
    /// bytes. Does not allocate by itself.
    fn encode<W: Writer>(&self, writer: &mut W) -> Result<()>
        ensures { Encodes W.fault (normal self.now)
            (W.sink writer.old) result (W.sink writer.new) };

    /// How many bytes the value has after its length. Fails with `Length` exactly if it or a string
    /// in it would exceed 2^32 - 1 bytes. Does not allocate.
    final fn encoded_len_prefixed(&self) -> Result<usize>
    where
        Self: Sized,
        ensures measures { Measures (box (normal self.now)) result }
        ensures short { IfOk result (λ n. n < 2 ^ 32 + 4) }
    {
        let len = u32_of(self.encoded_len()?)?;
        Ok(4 + len as usize)
    }

    /// Writes a length of four bytes, and the bytes of the normal form (RFC 4251, section 5).
    ///
    /// Fails as `encode` does, and with `Length` if there are more than 2^32 - 1 bytes.
    final fn encode_prefixed<W: Writer>(&self, writer: &mut W) -> Result<()>
    where
        Self: Sized,
        ensures { Encodes W.fault (box (normal self.now))
            (W.sink writer.old) result (W.sink writer.new) }
    {
        u32_of(self.encoded_len()?)?.encode(writer)?;
        self.encode(writer)
    }
}

/// The number in four bytes. Fails with `Length` if it needs more. Does not allocate.
pub fn u32_of(len: usize) -> Result<u32>
    ensures { IsLength len result }
{
    if len > u32::MAX as usize {
        return Err(Error::Length);
    }
    Ok(len as u32)
}

/// Writes a length of four bytes, and the bytes (RFC 4251, section 5).
///
/// Fails with `Length` if there are more than 2^32 - 1; any other error is the writer's own. After
/// an error the writer holds what it held before, and a prefix of these bytes.
pub fn encode_string<W: Writer>(bytes: &[u8], writer: &mut W) -> Result<()>
    ensures { Encodes W.fault (string bytes.now) (W.sink writer.old) result (W.sink writer.new) }
{
    u32_of(bytes.len())?.encode(writer)?;
    writer.write(bytes)
}

/// How many bytes a string has with its length before it. Fails with `Length` exactly if it is
/// longer than 2^32 - 1 bytes. Does not allocate.
#[tactic(auto, using(crate::proofs::Writing::measuring_leaves))]
pub fn string_len(bytes: &[u8]) -> Result<usize>
    ensures measures { Measures (string bytes.now) result }
    ensures short { IfOk result (λ n. n < 2 ^ 32 + 4) }
{
    let len = u32_of(bytes.len())?;
    Ok(4 + len as usize)
}

/// How many bytes two values have, one after the other. Fails with `Length` exactly if a string in
/// one of them would exceed 2^32 - 1 bytes. Does not allocate.
#[tactic(auto, using(crate::proofs::Writing::measuring))]
pub fn both_len<A: Encode, B: Encode>(first: &A, second: &B) -> Result<usize>
    requires { A.max_len + B.max_len < 2 ^ 64 }
    ensures measures { Measures (A.normal first.now & B.normal second.now) result }
    ensures short { IfOk result (λ n. n ≤ A.max_len + B.max_len) }
{
    Ok(first.encoded_len()? + second.encoded_len()?)
}

/// Writes two values, one after the other. Fails with `Length` if a string in one of them would
/// exceed 2^32 - 1 bytes; any other error is the writer's own. After an error the writer holds what
/// it held before, and a prefix of these bytes.
#[tactic(auto, using(crate::proofs::Writing::writing))]
pub fn encode_both<A: Encode, B: Encode, W: Writer>(
    first: &A,
    second: &B,
    writer: &mut W,
) -> Result<()>
    ensures { Encodes W.fault (A.normal first.now & B.normal second.now)
        (W.sink writer.old) result (W.sink writer.new) }
{
    first.encode(writer)?;
    second.encode(writer)
}

/// The bytes of the normal form, newly allocated.
///
/// Fails with `Length` exactly if a string in it would exceed 2^32 - 1 bytes, and otherwise only
/// when out of memory.
pub fn encode_vec<T: Encode>(alloc: Global, value: &T) -> Result<Vec<u8>>
    ensures { MakesBytes (T.normal value.now) result }
{
    let len = value.encoded_len()?;
    let mut bytes = Vec::with_capacity(alloc, len)?;
    value.encode(&mut bytes)?;
    Ok(bytes)
}

/// One byte (RFC 4251, section 5).
#[tactic(auto, using(crate::proofs::Writing::plain_number, crate::proofs::Writing::measuring_leaves))]
impl Encode for u8 {
    ghost normal = { number w8 };

    ghost max_len = { 1 };

    fn encoded_len(&self) -> Result<usize> {
        Ok(1)
    }

    fn encode<W: Writer>(&self, writer: &mut W) -> Result<()> {
        writer.write(&self.to_be_bytes())
    }
}

/// Four bytes, most significant first (RFC 4251, section 5).
#[tactic(auto, using(crate::proofs::Writing::plain_number, crate::proofs::Writing::measuring_leaves))]
impl Encode for u32 {
    ghost normal = { number w32 };

    ghost max_len = { 4 };

    fn encoded_len(&self) -> Result<usize> {
        Ok(4)
    }

    fn encode<W: Writer>(&self, writer: &mut W) -> Result<()> {
        writer.write(&self.to_be_bytes())
    }
}

/// Eight bytes, most significant first (RFC 4251, section 5).
#[tactic(auto, using(crate::proofs::Writing::plain_number, crate::proofs::Writing::measuring_leaves))]
impl Encode for u64 {
    ghost normal = { number w64 };

    ghost max_len = { 8 };

    fn encoded_len(&self) -> Result<usize> {
        Ok(8)
    }

    fn encode<W: Writer>(&self, writer: &mut W) -> Result<()> {
        writer.write(&self.to_be_bytes())
    }
}

/// A string of `N` bytes.
impl<const N: usize> Encode for [u8; N] {
    ghost normal = { string };

    ghost max_len = { 2 ^ 32 + 3 };

    fn encoded_len(&self) -> Result<usize> {
        string_len(self)
    }

    fn encode<W: Writer>(&self, writer: &mut W) -> Result<()> {
        encode_string(self, writer)
    }
}

/// A string.
impl Encode for &[u8] {
    ghost normal = { λ s. string s.now };

    ghost max_len = { 2 ^ 32 + 3 };

    fn encoded_len(&self) -> Result<usize> {
        string_len(*self)
    }

    fn encode<W: Writer>(&self, writer: &mut W) -> Result<()> {
        encode_string(*self, writer)
    }
}

/// A string.
impl Encode for Bytes {
    ghost normal = { string };

    ghost max_len = { 2 ^ 32 + 3 };

    fn encoded_len(&self) -> Result<usize> {
        string_len(self.as_slice())
    }

    fn encode<W: Writer>(&self, writer: &mut W) -> Result<()> {
        encode_string(self.as_slice(), writer)
    }
}

/// A string.
impl Encode for Vec<u8> {
    ghost normal = { λ v. string v.items };

    ghost max_len = { 2 ^ 32 + 3 };

    fn encoded_len(&self) -> Result<usize> {
        string_len(self)
    }

    fn encode<W: Writer>(&self, writer: &mut W) -> Result<()> {
        encode_string(self, writer)
    }
}
