//! Private keys that are all there is, and in front of a number.

use super::pairs::bytes_of;
use super::support::is_wanted;
use ssh_key::encoding::{Decode, decode_whole};
use ssh_key::terms::{Then, Wide};
use ssh_key::{Error, PrivateKey, Result};
use std::alloc::Global;

/// An encrypted key, put together by hand: aes256-ctr, bcrypt, and a ciphertext of two blocks.
const ENCRYPTED: &str =
    "6f70656e7373682d6b65792d7631000000000a6165733235362d6374720000000662637279707400000018000000102a2a2a2a2a2a2a2a2a2a2a2a2a2a2a2a0000001000000001000000330000000b7373682d6564323535313900000020b33eaef37ea2df7caa010defdea34e241f65f1b529a4f43ed14327f5c54aab62000000202a2a2a2a2a2a2a2a2a2a2a2a2a2a2a2a2a2a2a2a2a2a2a2a2a2a2a2a2a2a2a2a";

/// That key, and these bytes after it.
fn followed_by(alloc: Global, after: &[u8]) -> Result<Vec<u8>> {
    let mut bytes = bytes_of(alloc, ENCRYPTED);
    bytes.extend_from_slice(after)?;
    Ok(bytes)
}

/// Why the key with these bytes after it is none, where all is to be one.
fn fault_of_whole(alloc: Global, after: &[u8]) -> Result<Option<Error>> {
    let bytes = followed_by(alloc, after)?;
    Ok(decode_whole::<PrivateKey, &[u8]>(alloc, bytes.as_slice()).err())
}

/// Why the key is not read where these bytes, a number, follow it.
fn fault_before_number(alloc: Global, after: &[u8]) -> Result<Option<Error>> {
    let bytes = followed_by(alloc, after)?;
    let mut left = bytes.as_slice();
    Ok(Then::<PrivateKey, Wide<u32>>::decode(alloc, &mut left).err())
}

#[test]
fn nothing_follows_an_encrypted_key(rt: HostRuntime) {
    let alloc = rt.alloc();
    let one = Error::TrailingData { remaining: 1 };
    let four = Error::TrailingData { remaining: 4 };
    assert!(rt; is_wanted(fault_of_whole(alloc, &[]), Ok(None)));
    assert!(rt; is_wanted(fault_of_whole(alloc, &[0]), Ok(Some(one))));
    assert!(rt; is_wanted(fault_before_number(alloc, &[0, 0, 0, 5]), Ok(Some(four))));
}
