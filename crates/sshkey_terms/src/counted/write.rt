//! How a counted list is written, and how many bytes it has.

ghost use Rattle.sshkey_base.specs.Sink.{Encodes, MeasuresBoxed};
ghost use Rattle.sshkey_model.specs.Counted.{counted};

use sshkey_base::encoding::Result;
use sshkey_base::{Encode, Writer, each_len, encode_each, u32_of};

/// How many bytes a counted list has. Fails with `Length` exactly if a string can't hold it, a
/// string in one of the values is too long, or the values are more than 2^32 - 1. Does not
/// allocate.
pub fn counted_len<T: Encode>(values: &[T]) -> Result<u32>
    ensures { MeasuresBoxed (counted T.normal values.now) result }
{
    u32_of(values.len().encoded_len()? + each_len(values)? as usize)
}

/// Writes a counted list: the number of the values in four bytes, and the values, one after the
/// other. Fails as `encode_each` does, and with `Length` if the values are more than 2^32 - 1.
pub fn encode_counted<T: Encode, W: Writer>(values: &[T], writer: &mut W) -> Result<()>
    ensures { Encodes W.fault (counted T.normal values.now)
        (W.sink writer.old) result (W.sink writer.new) }
{
    values.len().encode(writer)?;
    encode_each(values, writer)
}
