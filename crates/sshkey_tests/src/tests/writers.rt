//! Writers, and values that are written in parts.

ghost use Rattle.std.specs.Prelude.{◌≤◌};

use super::support::{is_debugged, is_wanted};
use sshkey_base::encoding::{Error, Result};
use sshkey_base::{
    Encode, SliceWriter, Writer, both_len, encode_both, encode_list, encode_string, encode_vec,
    list_len, string_len,
};
use std::alloc::Global;

/// `testing` as a string (RFC 4251, section 5).
const TESTING: [u8; 11] = *b"\0\0\0\x07testing";

/// The value is written as the string.
fn is_testing<T: Encode>(alloc: Global, value: &T) -> bool {
    match encode_vec(alloc, value) {
        Ok(written) => written.as_slice() == TESTING.as_slice(),
        Err(_) => false,
    }
}

/// The string, and two bytes more, in a vector.
fn with_two_more(alloc: Global) -> Result<Vec<u8>> {
    let mut written = encode_vec(alloc, &"testing")?;
    written.write(&[1, 2])?;
    Ok(written)
}

fn is_longer(alloc: Global) -> bool {
    match with_two_more(alloc) {
        Ok(it) => it.len() == 13 && it.starts_with(&TESTING) && it.ends_with(&[1, 2]),
        Err(_) => false,
    }
}

/// A string in each of the types that hold one, and two bytes more.
fn strings(alloc: Global) -> bool {
    is_testing(alloc, &"testing")
        && is_testing(alloc, b"testing")
        && is_testing(alloc, &b"testing".as_slice())
        && is_wanted(string_len(b"testing"), Ok(11))
        && is_longer(alloc)
}

#[test]
fn into_a_vector(rt: HostRuntime) {
    assert!(rt; strings(rt.alloc()));
}

/// Writes a number in a box, two numbers, a string, and a list of two numbers.
fn write_parts<W: Writer>(writer: &mut W) -> Result<()> {
    256u32.encode_prefixed(writer)?;
    encode_both(&513u32, &9u8, writer)?;
    encode_string(&[4, 5], writer)?;
    encode_list(&[1u32, 258], writer)
}

/// What `write_parts` writes: lengths of four bytes, and numbers of four bytes or one (RFC 4251,
/// section 5).
const PARTS: [u8; 31] = [
    0, 0, 0, 4, 0, 0, 1, 0, 0, 0, 2, 1, 9, 0, 0, 0, 2, 4, 5, 0, 0, 0, 8, 0, 0, 0, 1, 0, 0, 1, 2,
];

#[test]
fn parts(rt: HostRuntime) {
    let mut room = [0u8; 32];
    let mut writer = SliceWriter::new(&mut room);
    assert!(rt; write_parts(&mut writer).is_ok() && writer.written() == PARTS.as_slice());
    assert!(rt; 256u32.encoded_len_prefixed() == Ok(8) && both_len(&513u32, &9u8) == Ok(5));
    assert!(rt; is_wanted(list_len(&[1u32, 258]), Ok(12)));
}

/// What stands in a slice of this length after the parts were written to it, and the answer.
fn is_filled(len: usize) -> bool
    requires { len ≤ 31 }
{
    let mut room = [0xeeu8; 31];
    let mut writer = SliceWriter::new(&mut room[..len]);
    let answer = write_parts(&mut writer);
    let written = writer.written();
    PARTS.starts_with(written)
        && if len == 31 {
            answer.is_ok() && written.len() == 31
        } else {
            is_wanted(answer, Err(Error::Length))
        }
}

#[test]
fn a_slice_of_each_length(rt: HostRuntime) {
    for len in 0..32 {
        assert!(rt; is_filled(len), "{len}");
    }
}

/// What a writer into eight bytes shows before it has written, and after three bytes: both lengths.
fn shows_lengths(alloc: Global) -> Result<bool> {
    let mut room = [42u8; 8];
    let mut writer = SliceWriter::new(&mut room);
    let none = is_debugged(alloc, &writer, "SliceWriter { len: 0, room: 8, .. }");
    writer.write(&[42, 42, 42])?;
    Ok(none && is_debugged(alloc, &writer, "SliceWriter { len: 3, room: 8, .. }"))
}

#[test]
fn a_writer_shows_no_bytes(rt: HostRuntime) {
    assert!(rt; is_wanted(shows_lengths(rt.alloc()), Ok(true)));
}

#[test]
fn a_count_past_four_bytes(rt: HostRuntime) {
    let counts = [1usize, 4_294_967_296];
    let mut room = [0u8; 16];
    let mut writer = SliceWriter::new(&mut room);
    assert!(rt; is_wanted(counts[1].encoded_len(), Err(Error::Length)));
    assert!(rt; is_wanted(counts[1].encode(&mut writer), Err(Error::Length)));
    assert!(rt; is_wanted(list_len(&counts), Err(Error::Length)));
    assert!(rt; is_wanted(encode_list(&counts, &mut writer), Err(Error::Length)));
    assert!(rt; writer.written().is_empty());
}
