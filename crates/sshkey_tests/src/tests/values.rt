//! Byte strings, texts and numbers.

use super::support::{are_alike, is_wanted, shows};
use sshkey_base::{Bytes, Encode, Error, Mpint, Result, Text, decode_whole, encode_vec, encoding};
use sshkey_terms::{split_bytes, split_string, split_text, split_u32, split_u64};
use std::alloc::Global;
use std::convert::AsSlice;
use std::fmt;

/// `testing` as a string (RFC 4251, section 5).
const TESTING: &[u8] = b"\0\0\0\x07testing";

/// The value is written as the string.
fn is_written<T: Encode>(alloc: Global, value: &T) -> bool {
    match encode_vec(alloc, value) {
        Ok(written) => written.as_slice() == TESTING,
        Err(_) => false,
    }
}

/// The string's copy, handed back as a vector, is written as it is.
fn are_copied(alloc: Global, string: &Bytes) -> bool {
    match string.try_clone(alloc) {
        Ok(copy) => is_written(alloc, &Bytes::new(copy.into_vec())),
        Err(_) => false,
    }
}

/// The bytes are equal to the string.
fn are_equal(alloc: Global, string: &Bytes, bytes: &[u8]) -> bool {
    match Bytes::from_slice(alloc, bytes) {
        Ok(same) => are_alike(string, &same),
        Err(_) => false,
    }
}

/// The bytes come after the string.
fn are_after(alloc: Global, string: &Bytes, bytes: &[u8]) -> bool {
    match Bytes::from_slice(alloc, bytes) {
        Ok(other) => *string < other && *string != other,
        Err(_) => false,
    }
}

/// The string is read, copied, compared, written, and handed back as a vector.
fn byte_strings(alloc: Global) -> bool {
    match decode_whole::<Bytes, &[u8]>(alloc, TESTING) {
        Ok(string) => {
            string.as_slice() == b"testing".as_slice()
                && are_copied(alloc, &string)
                && are_equal(alloc, &string, b"testing")
                && are_after(alloc, &string, b"testinh")
        }
        Err(_) => false,
    }
}

/// The text's copy is written as it is, and equal to it once it was a string.
fn is_copied(alloc: Global, text: &Text) -> bool {
    match text.try_clone(alloc) {
        Ok(copy) => { is_written(alloc, &copy) && are_alike(text, &Text::new(copy.into_string())) }
        Err(_) => false,
    }
}

/// The letters come after the text.
fn is_after(alloc: Global, text: &Text, letters: &str) -> bool {
    match String::from_str(alloc, letters) {
        Ok(letters) => is_less(text, &Text::new(letters)),
        Err(_) => false,
    }
}

fn is_less(text: &Text, other: &Text) -> bool {
    text < other && text != other
}

/// The same of a text.
fn texts(alloc: Global) -> bool {
    match decode_whole::<Text, &[u8]>(alloc, TESTING) {
        Ok(text) => {
            text.as_str() == "testing"
                && is_copied(alloc, &text)
                && is_after(alloc, &text, "testinh")
        }
        Err(_) => false,
    }
}

#[test]
fn strings(rt: HostRuntime) {
    assert!(rt; byte_strings(rt.alloc()));
    assert!(rt; texts(rt.alloc()));
}

/// A value in both hexadecimal forms.
#[derive(Drop)]
pub(crate) struct Forms<'a, T>(pub(crate) &'a T);

impl<T: fmt::LowerHex + fmt::UpperHex> fmt::Display for Forms<'_, T> {
    fn fmt<W: fmt::Write>(&self, f: &mut fmt::Formatter<W>) -> fmt::Result {
        fmt::UpperHex::fmt(self.0, f)?;
        write!(f, " ")?;
        fmt::LowerHex::fmt(self.0, f)
    }
}

/// The number of a vector of these bytes.
fn number(alloc: Global, bytes: &[u8]) -> Result<Mpint> {
    Mpint::from_vec(Vec::from_slice(alloc, bytes)?)
}

/// Its copy is the same.
fn has_copy(alloc: Global, number: &Mpint) -> bool {
    match number.try_clone(alloc) {
        Ok(copy) => number.as_bytes() == copy.as_bytes() && are_alike(number, &copy),
        Err(_) => false,
    }
}

/// The number -1234 of a vector (RFC 4251, section 5), its copy and its forms.
fn numbers(alloc: Global) -> bool {
    match number(alloc, &[0xed, 0xcc]) {
        Ok(number) => {
            number.as_slice() == [0xed, 0xcc].as_slice()
                && has_copy(alloc, &number)
                && shows(alloc, &Forms(&number), "EDCC edcc")
        }
        Err(_) => false,
    }
}

#[test]
fn numbers_of_vectors(rt: HostRuntime) {
    assert!(rt; numbers(rt.alloc()));
    // bytes that are no number
    assert!(rt;
        is_wanted(
            number(rt.alloc(), &[0, 1]).err(),
            Some(Error::FormatEncoding)
        )
    );
}

#[test]
fn fronts_of_slices(rt: HostRuntime) {
    // the number of RFC 4251, section 5
    let number = [0, 0, 0, 0, 0x29, 0xb7, 0xf4, 0xaa];
    assert!(rt; is_wanted(split_u32(&number[4..]), Ok((699_921_578, [].as_slice()))));
    assert!(rt; is_wanted(split_u32(&number[5..]), Err(encoding::Error::Length)));
    assert!(rt; is_wanted(split_u64(&number), Ok((699_921_578, [].as_slice()))));
    assert!(rt; is_wanted(split_u64(&number[1..]), Err(encoding::Error::Length)));
    assert!(rt; is_wanted(split_bytes(11, TESTING), Ok((TESTING, [].as_slice()))));
    assert!(rt; is_wanted(split_bytes(12, TESTING), Err(encoding::Error::Length)));
}

#[test]
fn strings_in_front_of_slices(rt: HostRuntime) {
    let two = b"\0\0\0\x07testing\0\0\0\x01\xff".as_slice();
    let rest = b"\0\0\0\x01\xff".as_slice();
    assert!(rt; is_wanted(split_string(two), Ok((b"testing".as_slice(), rest))));
    assert!(rt; is_wanted(split_text(two), Ok(("testing", rest))));
    assert!(rt; is_wanted(split_string(rest), Ok(([0xff].as_slice(), [].as_slice()))));
    assert!(rt; is_wanted(split_text(rest), Err(encoding::Error::CharacterEncoding)));
    assert!(rt; is_wanted(split_string(&rest[..4]), Err(encoding::Error::Length)));
}
