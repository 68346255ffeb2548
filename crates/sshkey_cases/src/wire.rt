//! Values of the wire encoding.

use sshkey_base::{
    Decode, Encode, Error, Mpint, Result, ShortBytes, decode_prefixed, decode_whole, encode_vec,
};
use std::alloc::Global;
use std::fmt::{Debug, Display};

/// What follows the answer: how many bytes are left, and what is written of the value, where these
/// are not the bytes that were read.
pub(crate) fn rest<T: Encode>(
    alloc: Global,
    value: &T,
    bytes: &[u8],
    left: usize,
) -> Result<String> {
    let (read, _) = bytes.split_at(bytes.len().saturating_sub(left));
    let after = after(alloc, left)?;
    let written = written(alloc, value, read)?;
    Ok(format!(in alloc; "{after}{written}")?)
}

fn after(alloc: Global, left: usize) -> Result<String> {
    match left {
        0 => Ok(String::new(alloc)),
        _ => Ok(format!(in alloc; ", {left} left")?),
    }
}

/// What is written of a value that was read from these bytes, where it is not these, and how many
/// bytes it is said to have, where these are not as many as are written.
fn written<T: Encode>(alloc: Global, value: &T, read: &[u8]) -> Result<String> {
    let written = encode_vec(alloc, value)?;
    let counted = counted(alloc, written.len(), value.encoded_len()?)?;
    if written.as_slice() == read {
        return Ok(counted);
    }
    let digits = hex::encode(alloc, &written)?;
    Ok(format!(in alloc; ", written as {digits}{counted}")?)
}

fn counted(alloc: Global, written: usize, len: usize) -> Result<String> {
    if written == len {
        return Ok(String::new(alloc));
    }
    Ok(format!(in alloc; ", of {len} bytes")?)
}

/// The value at the front of the bytes, as it is shown.
pub(crate) fn front<T>(alloc: Global, bytes: &[u8]) -> Result<String>
where
    T: Decode + Encode + Display + Drop,
    Error: From<T::Error>,
{
    let mut left = bytes;
    let value = T::decode(alloc, &mut left)?;
    let rest = rest(alloc, &value, bytes, left.len())?;
    Ok(format!(in alloc; "{value}{rest}")?)
}

/// Whether a value is at the front of the bytes.
pub(crate) fn kept<T>(alloc: Global, bytes: &[u8]) -> Result<String>
where
    T: Decode + Encode + Drop,
    Error: From<T::Error>,
{
    let mut left = bytes;
    let value = T::decode(alloc, &mut left)?;
    let rest = rest(alloc, &value, bytes, left.len())?;
    Ok(format!(in alloc; "read{rest}")?)
}

/// Whether all the bytes are a value.
pub(crate) fn whole<T>(alloc: Global, bytes: &[u8]) -> Result<String>
where
    T: Decode + Encode + Drop,
    Error: From<T::Error>,
{
    let value = decode_whole::<T, &[u8]>(alloc, bytes)?;
    let rest = rest(alloc, &value, bytes, 0)?;
    Ok(format!(in alloc; "read{rest}")?)
}

/// The text of what was answered.
pub(crate) fn shown<T: Display + Drop>(alloc: Global, answer: Result<T>) -> Result<String> {
    Ok(answer?.to_string(alloc)?)
}

/// What `{:?}` shows of a value.
pub(crate) fn debugged<T: Debug>(alloc: Global, value: &T) -> Result<String> {
    Ok(format!(in alloc; "{value:?}")?)
}

/// The bytes of a string of at most seven bytes, as digits.
pub(crate) fn short(alloc: Global, bytes: &[u8]) -> Result<String> {
    let mut left = bytes;
    let short = ShortBytes::<7>::decode(alloc, &mut left)?;
    let digits = hex::encode(alloc, short.as_slice())?;
    Ok(format!(in alloc; "{digits}, {} left", left.len())?)
}

/// A list of texts.
pub(crate) fn list(alloc: Global, bytes: &[u8]) -> Result<String> {
    let mut left = bytes;
    let texts = Vec::<String>::decode(alloc, &mut left)?;
    let rest = rest(alloc, &texts, bytes, left.len())?;
    Ok(format!(in alloc; "{texts:?}{rest}")?)
}

/// A number of four bytes in a box.
pub(crate) fn boxed(alloc: Global, bytes: &[u8]) -> Result<String> {
    let mut left = bytes;
    let number = decode_prefixed::<u32, _>(alloc, &mut left)?;
    Ok(format!(in alloc; "{number}, {} left", left.len())?)
}

/// The number of these bytes, and its positive part.
pub(crate) fn number(alloc: Global, bytes: &[u8]) -> Result<String> {
    let number = Mpint::from_bytes(alloc, bytes)?;
    match number.as_positive_bytes() {
        Some(part) => {
            let digits = hex::encode(alloc, part)?;
            Ok(format!(in alloc; "{number}, positive {digits}")?)
        }
        None => Ok(format!(in alloc; "{number}, not positive")?),
    }
}

/// The positive number of these bytes.
pub(crate) fn positive(alloc: Global, bytes: &[u8]) -> Result<String> {
    let number = Mpint::from_positive_bytes(alloc, bytes)?;
    Ok(format!(in alloc; "{number}")?)
}

/// The values of the byte strings, which are in rising order: each is less than those after it, and
/// equals itself alone.
pub(crate) fn rising<T: Decode + Ord + Drop>(alloc: Global, parts: &[Vec<u8>]) -> Result<String>
where
    Error: From<T::Error>,
{
    let mut values = Vec::new(alloc);
    for bytes in parts {
        values.push(decode_whole::<T, &[u8]>(alloc, bytes)?)?;
    }
    let mut rises = true;
    for (i, first) in values.iter().enumerate() {
        for (j, second) in values.iter().enumerate() {
            rises = rises && first.cmp(second) == i.cmp(&j) && (first == second) == (i == j);
        }
    }
    Ok(String::from_str(alloc, if rises { "rising" } else { "not rising" })?)
}
