//! Readers: slices, parts of them, and a source that has a fault of its own after its bytes.

use super::support::{is_debugged, is_wanted};
use sshkey_base::encoding::{Error, Result};
use sshkey_base::{Algorithm, Bytes, Decode, NestedReader, Reader, ShortBytes, decode_whole};
use sshkey_doubles::Faulty;
use sshkey_terms::Counted;
use std::alloc::Global;

/// The name `ssh-ed25519` as a string.
const NAME: [u8; 15] = *b"\0\0\0\x0bssh-ed25519";

/// The bytes of a part of two, by a closure of two reads.
fn pair(alloc: Global, bytes: &[u8]) -> Result<(u8, u8)> {
    let mut left = bytes;
    left.read_prefixed(|part| Ok((u8::decode(alloc, part)?, u8::decode(alloc, part)?)))
}

#[test]
fn a_closure_over_a_part(rt: HostRuntime) {
    let alloc = rt.alloc();
    assert!(rt; is_wanted(pair(alloc, &[0, 0, 0, 2, 5, 6, 7]), Ok((5, 6))));
    assert!(rt; is_wanted(pair(alloc, &[0, 0, 0, 1, 5, 6, 7]), Err(Error::Length)));
    let longer = pair(alloc, &[0, 0, 0, 3, 5, 6, 7]);
    assert!(rt; is_wanted(longer, Err(Error::TrailingData { remaining: 1 })));
}

/// What a part of three bytes lends before one of them is passed, and after it.
fn lends(bytes: &[u8]) -> Result<bool> {
    let mut left = bytes;
    left.read_prefixed(|part: &mut NestedReader<'_, &[u8]>| -> Result<bool> {
        let none = part.ahead(4).is_none() && part.ahead(3).is_some();
        let mut first = [0];
        part.read(&mut first)?;
        let short = ShortBytes::<2>::ahead(3, part).is_none();
        let rest = ShortBytes::<2>::read_from(2, part)?;
        Ok(none && short && first == [5] && rest.as_slice() == [6, 7].as_slice())
    })
}

#[test]
fn bytes_that_are_lent(rt: HostRuntime) {
    assert!(rt; is_wanted(lends(&[0, 0, 0, 3, 5, 6, 7, 8]), Ok(true)));
    assert!(rt; is_wanted(lends(&[0, 0, 0, 2, 5, 6, 7, 8]), Err(Error::Length)));
    let mut left = NAME.as_slice();
    assert!(rt; left.ahead(16).is_none() && left.ahead(15) == Some(NAME.as_slice()));
    left.skip(4);
    assert!(rt; left == b"ssh-ed25519".as_slice() && !left.is_finished());
    assert!(rt; is_wanted(left.finish(4), Err(Error::TrailingData { remaining: 11 })));
    left.skip(11);
    assert!(rt; left.is_finished() && left.finish(4) == Ok(4));
}

/// What a part of three bytes shows before one of them is read, and after it: how many are left.
fn shows_lengths(alloc: Global, bytes: &[u8]) -> Result<bool> {
    let mut left = bytes;
    left.read_prefixed(|part: &mut NestedReader<'_, &[u8]>| -> Result<bool> {
        let three = is_debugged(alloc, &*part, "NestedReader { remaining: 3, .. }");
        let (mut first, mut rest) = ([0u8; 1], [0u8; 2]);
        part.read(&mut first)?;
        let two = is_debugged(alloc, &*part, "NestedReader { remaining: 2, .. }");
        part.read(&mut rest)?;
        Ok(three && two)
    })
}

#[test]
fn a_part_shows_no_bytes(rt: HostRuntime) {
    assert!(rt;
        is_wanted(
            shows_lengths(rt.alloc(), &[0, 0, 0, 3, 42, 42, 42]),
            Ok(true)
        )
    );
}

/// The first `len` bytes of the name, and after them a fault in place of the next `missing`.
fn cut_short(len: u8, missing: u8) -> Faulty<'static> {
    let len = NAME.len().min(len as usize);
    Faulty::new(&NAME[..len], missing as u32)
}

/// Neither the algorithm nor the string is all of that source.
fn is_refused(alloc: Global, source: Faulty<'_>) -> bool {
    decode_whole::<Algorithm, _>(alloc, source).is_err()
        && decode_whole::<Bytes, _>(alloc, source).is_err()
}

#[test]
fn a_fault_is_never_accepted_whole(rt: HostRuntime) {
    for len in 0..15u8 {
        for missing in 1..17u8 {
            assert!(rt; is_refused(rt.alloc(), cut_short(len, missing)));
        }
    }
    // all of the name is there, and more is announced
    let more = decode_whole::<Algorithm, _>(rt.alloc(), cut_short(15, 2));
    assert!(rt; is_wanted(more, Err(Error::TrailingData { remaining: 2 })));
    let whole = decode_whole::<Algorithm, _>(rt.alloc(), cut_short(15, 0));
    assert!(rt; is_wanted(whole, Ok(Algorithm::Ed25519)));
}

/// The fault of a string that is cut short.
fn fault_of_string(alloc: Global, len: u8, missing: u8) -> Option<Error> {
    Bytes::decode(alloc, &mut cut_short(len, missing)).err()
}

#[test]
fn a_front_before_a_fault(rt: HostRuntime) {
    for len in 0..15u8 {
        assert!(rt; is_wanted(fault_of_string(rt.alloc(), len, 20), Some(Error::Base64)));
    }
    // a length past what was announced is `Length`, whatever is missing
    assert!(rt; is_wanted(fault_of_string(rt.alloc(), 14, 0), Some(Error::Length)));
    assert!(rt; is_wanted(fault_of_string(rt.alloc(), 10, 4), Some(Error::Length)));
    // after the front the fault is left
    let mut source = cut_short(15, 20);
    let name = Bytes::decode(rt.alloc(), &mut source);
    assert!(rt; name.is_ok_and(|name| name.as_slice() == b"ssh-ed25519".as_slice()));
    assert!(rt; source.remaining_len() == 20 && !source.is_finished());
}

/// The fault of two strings after their count, the second of which states `len` bytes, if eight of
/// them are missing.
fn fault_of_second(alloc: Global, len: u8) -> Option<Error> {
    let bytes = [0, 0, 0, 2, 0, 0, 0, 1, 42, 0, 0, 0, len];
    Counted::<Bytes>::decode(alloc, &mut Faulty::new(&bytes, 8)).err()
}

#[test]
fn a_counted_value_before_a_fault(rt: HostRuntime) {
    assert!(rt; is_wanted(fault_of_second(rt.alloc(), 8), Some(Error::Base64)));
    assert!(rt; is_wanted(fault_of_second(rt.alloc(), 9), Some(Error::Length)));
}
