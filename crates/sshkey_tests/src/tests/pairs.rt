//! Key pairs.

use super::support::is_wanted;
use sshkey_base::{Algorithm, Encode, Error, Result, decode_whole, encode_vec, encoding};
use sshkey_kinds::{Ed25519PublicKey, OpaquePublicKey, SkEd25519 as PublicSkEd25519};
use sshkey_pair_kinds::{Ed25519Keypair, Ed25519PrivateKey, SkEd25519};
use sshkey_pairs::{KeypairData, OpaqueKeypair};
use std::alloc::Global;

/// The bytes that the digits spell.
pub(super) fn bytes_of(alloc: Global, digits: &str) -> Vec<u8> {
    match hex::decode(alloc, digits) {
        Ok(bytes) => bytes,
        Err(_) => Vec::new(alloc),
    }
}

/// The value is written as the bytes that the digits spell.
pub(super) fn is_written<T: Encode>(alloc: Global, value: &T, digits: &str) -> bool {
    match encode_vec(alloc, value) {
        Ok(written) => written == bytes_of(alloc, digits),
        Err(_) => false,
    }
}

pub(super) fn read(alloc: Global, digits: &str) -> Result<KeypairData> {
    decode_whole(alloc, bytes_of(alloc, digits).as_slice())
}

/// The pair of those bytes: its own bytes, its checkint and its public half.
fn bytes_and_checkint(alloc: Global) -> Result<bool> {
    let mut bytes = [42u8; 64];
    bytes[0] = 43;
    let pair = Ed25519Keypair::from_bytes(&bytes);
    let private = Ed25519PrivateKey::from_bytes(&pair.private.to_bytes());
    let same = pair.to_bytes() == bytes && private == pair.private;
    let public = pair.public == Ed25519PublicKey([42; 32]);
    let checkint = KeypairData::Ed25519(pair).checkint();
    Ok(same && public && checkint == 0x0100_0000)
}

/// A pair under a private-use name.
fn opaque(alloc: Global) -> Result<OpaqueKeypair> {
    let algorithm = Algorithm::new(alloc, "name@example.com")?;
    let public = OpaquePublicKey::new(Vec::from_slice(alloc, b"ab")?, algorithm);
    Ok(OpaqueKeypair::new(Vec::from_slice(alloc, b"cde")?, public))
}

/// The pair under that name is written as two strings.
fn is_opaque(alloc: Global) -> bool {
    match opaque(alloc) {
        Ok(pair) => {
            pair.algorithm().as_str() == "name@example.com"
                && is_written(alloc, &pair, "00000002616200000003636465")
        }
        Err(_) => false,
    }
}

/// A pair that was not decrypted has neither an algorithm nor a public half.
fn has_no_half(alloc: Global, pair: &KeypairData) -> bool {
    is_wanted(pair.to_public(alloc).err(), Some(Error::Encrypted))
        && is_wanted(pair.algorithm(alloc).err(), Some(Error::Encrypted))
}

/// It is its ciphertext.
fn is_encrypted(alloc: Global) -> bool {
    let pair = KeypairData::Encrypted(bytes_of(alloc, "736563726574"));
    is_written(alloc, &pair, "736563726574") && pair.checkint() == 0 && has_no_half(alloc, &pair)
}

/// A pair of a security key with that many bytes of key handle.
pub(super) fn held(alloc: Global, len: usize) -> Result<SkEd25519> {
    let plain = Ed25519PublicKey([7; 32]);
    let public = PublicSkEd25519::with_default_application(alloc, plain)?;
    let mut handle = Vec::new(alloc);
    handle.resize(len, 9)?;
    SkEd25519::new(public, 1, handle)
}

/// What is written of the pair is read as the same pair.
fn is_read_back(alloc: Global, pair: &SkEd25519, written: &[u8]) -> bool {
    match decode_whole::<SkEd25519, &[u8]>(alloc, written) {
        Ok(again) => again == *pair && written.len() == 308,
        Err(_) => false,
    }
}

fn is_kept_of_device(alloc: Global, pair: &SkEd25519) -> bool {
    match encode_vec(alloc, pair) {
        Ok(written) => {
            is_read_back(alloc, pair, &written)
                && pair.flags() == 1
                && pair.key_handle().len() == 255
        }
        Err(_) => false,
    }
}

fn is_held(alloc: Global) -> bool {
    match held(alloc, 255) {
        Ok(pair) => is_kept_of_device(alloc, &pair),
        Err(_) => false,
    }
}

#[test]
fn other_pairs(rt: HostRuntime) {
    let alloc = rt.alloc();
    assert!(rt; is_wanted(bytes_and_checkint(alloc), Ok(true)));
    assert!(rt; is_opaque(alloc));
    assert!(rt; is_encrypted(alloc));
    assert!(rt; is_held(alloc));
    assert!(rt;
        is_wanted(
            held(alloc, 256).err(),
            Some(Error::Encoding(encoding::Error::Length))
        )
    );
}
