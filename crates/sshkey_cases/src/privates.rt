//! Private keys. Each function lets go of one key at the most.

use crate::bytes::{part, text};
use crate::wire::{debugged, rest};
use sshkey_base::{Decode, HashAlg, Result, decode_whole, erase_slice};
use sshkey_private::PrivateKey;
use sshkey_public::PublicKey;
use std::alloc::Global;

/// The line of the public key, and the cipher, of the private key that all the bytes spell.
pub(crate) fn whole(alloc: Global, bytes: &[u8]) -> Result<String> {
    let key = PrivateKey::from_bytes(alloc, bytes)?;
    shown(alloc, &key, bytes)
}

/// The same of the private key that they spell with more padding, perhaps, than is written.
pub(crate) fn padded(alloc: Global, bytes: &[u8]) -> Result<String> {
    let key = PrivateKey::from_padded_bytes(alloc, bytes)?;
    shown(alloc, &key, bytes)
}

fn shown(alloc: Global, key: &PrivateKey, bytes: &[u8]) -> Result<String> {
    let line = key.public_key().to_openssh(alloc)?;
    let cipher = key.cipher();
    let rest = rest(alloc, key, bytes, 0)?;
    Ok(format!(in alloc; "{line}, cipher {cipher}{rest}")?)
}

/// Whether the byte strings spell equal private keys.
pub(crate) fn compared(alloc: Global, parts: &[Vec<u8>]) -> Result<String> {
    let key = PrivateKey::from_bytes(alloc, part(parts, 0))?;
    let equal = is_equal(alloc, &key, part(parts, 1))?;
    Ok(String::from_str(alloc, if equal { "equal" } else { "different" })?)
}

fn is_equal(alloc: Global, key: &PrivateKey, bytes: &[u8]) -> Result<bool> {
    Ok(PrivateKey::from_bytes(alloc, bytes)? == *key)
}

/// What `{:?}` shows of the private key that all the bytes spell.
pub(crate) fn debug(alloc: Global, bytes: &[u8]) -> Result<String> {
    debugged(alloc, &PrivateKey::from_bytes(alloc, bytes)?)
}

/// What the private key in front of the bytes holds, its key derivation, algorithm and fingerprint,
/// and how many bytes are left.
pub(crate) fn front(alloc: Global, bytes: &[u8]) -> Result<String> {
    let mut left = bytes;
    let key = PrivateKey::decode(alloc, &mut left)?;
    told(alloc, &key, left.len())
}

fn told(alloc: Global, key: &PrivateKey, left: usize) -> Result<String> {
    let held = held_by(key);
    let derivation = key.kdf().algorithm();
    let fingerprint = key.fingerprint(alloc, HashAlg::Sha256)?;
    let algorithm = key.algorithm(alloc)?;
    Ok(format!(in alloc; "{held}, {derivation}, {algorithm}, {fingerprint}, {left} left")?)
}

/// What it is said to hold.
fn held_by(key: &PrivateKey) -> &'static str {
    match (key.is_encrypted(), key.key_data().is_encrypted()) {
        (true, true) => "a ciphertext",
        (false, false) => "a pair",
        _ => "both",
    }
}

/// The comment of the private key that the first byte string spells, whether a copy with the
/// comment that the second one is equals it, and the public line of that copy.
pub(crate) fn commented(alloc: Global, parts: &[Vec<u8>]) -> Result<String> {
    let comment = text(parts, 1)?;
    let key = PrivateKey::from_bytes(alloc, part(parts, 0))?;
    copied(alloc, &key, comment)
}

fn copied(alloc: Global, key: &PrivateKey, comment: &str) -> Result<String> {
    let copy = with_comment(alloc, key, comment)?;
    let word = if copy == *key {
        "equals"
    } else {
        "differs from"
    };
    let line = line_of(alloc, copy)?;
    Ok(format!(in alloc; "'{}' {word} {line}", key.comment())?)
}

/// A copy with that comment.
fn with_comment(alloc: Global, key: &PrivateKey, comment: &str) -> Result<PrivateKey> {
    let comment = String::from_str(alloc, comment)?;
    let mut copy = key.try_clone(alloc)?;
    copy.set_comment(comment);
    Ok(copy)
}

fn line_of(alloc: Global, key: PrivateKey) -> Result<String> {
    PublicKey::from(key).to_openssh(alloc)
}

/// The bytes of the private key that is made of a pair, which the first byte string spells, and of
/// a comment, where there is one.
pub(crate) fn of_pair(alloc: Global, parts: &[Vec<u8>]) -> Result<String> {
    let key = key_of_pair(alloc, parts)?;
    written(alloc, &key)
}

fn key_of_pair(alloc: Global, parts: &[Vec<u8>]) -> Result<PrivateKey> {
    match parts {
        [pair] => made(alloc, pair),
        _ => made_with(alloc, part(parts, 0), text(parts, 1)?),
    }
}

fn made(alloc: Global, pair: &[u8]) -> Result<PrivateKey> {
    PrivateKey::from_keypair(alloc, decode_whole(alloc, pair)?)
}

fn made_with(alloc: Global, pair: &[u8], comment: &str) -> Result<PrivateKey> {
    let comment = String::from_str(alloc, comment)?;
    PrivateKey::new(alloc, decode_whole(alloc, pair)?, comment)
}

fn written(alloc: Global, key: &PrivateKey) -> Result<String> {
    let mut bytes = key.to_bytes(alloc)?;
    let digits = hex::encode(alloc, &bytes)?;
    erase_slice(&mut bytes);
    Ok(digits)
}
