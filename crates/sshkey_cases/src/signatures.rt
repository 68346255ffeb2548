//! Signatures.

use crate::bytes::{part, text};
use sshkey_base::{Algorithm, Error, Result, decode_whole};
use sshkey_doubles::{AcceptAll, Only};
use sshkey_keys::{KeyData, RawVerifier, Signature};
use sshkey_keys_ref::{KeyDataRef, SignatureRef};
use std::alloc::Global;

/// The signature that all the bytes spell.
pub(crate) fn whole(alloc: Global, bytes: &[u8]) -> Result<String> {
    shown(alloc, &Signature::from_bytes(alloc, bytes)?, bytes)
}

/// The signature at the front of the bytes.
pub(crate) fn front(alloc: Global, bytes: &[u8]) -> Result<String> {
    shown(alloc, &Signature::from_front(alloc, bytes)?, bytes)
}

/// The name of the algorithm, how many bytes are the signature's own, and whether the bytes begin
/// with what is written of it.
pub(crate) fn shown(alloc: Global, signature: &Signature, bytes: &[u8]) -> Result<String> {
    let written = signature.to_bytes(alloc)?;
    let own = signature.as_bytes();
    let is_same = bytes.starts_with(&written) && written.ends_with(own);
    let other = if is_same { "" } else { ", written otherwise" };
    Ok(format!(in alloc; "{}, {} bytes{other}", signature.algorithm(), own.len())?)
}

/// The signature by the algorithm that the first byte string names, with the bytes of the second.
pub(crate) fn made(alloc: Global, parts: &[Vec<u8>]) -> Result<String> {
    let algorithm = Algorithm::new(alloc, text(parts, 0)?)?;
    let signature = Signature::new(algorithm, part(parts, 1).to_vec(alloc)?)?;
    Ok(format!(in alloc; "{} bytes", signature.as_bytes().len())?)
}

/// Whether the key that the first byte string spells accepts the signature that the third one
/// spells of the message that is the second, where the verifier accepts all that it is asked; or
/// the name of the algorithm for which it asks nothing.
pub(crate) fn accepted(alloc: Global, parts: &[Vec<u8>]) -> Result<String> {
    let key: KeyData = decode_whole(alloc, part(parts, 0))?;
    answer(alloc, verify(alloc, &key, parts, &AcceptAll))
}

fn verify<V: RawVerifier>(
    alloc: Global,
    key: &KeyData,
    parts: &[Vec<u8>],
    verifier: &V,
) -> Result<()> {
    let signature = Signature::from_bytes(alloc, part(parts, 2))?;
    key.verify(alloc, part(parts, 1), &signature, verifier)
}

/// The same of all but the first three byte strings, which the verifier knows.
pub(crate) fn known(alloc: Global, parts: &[Vec<u8>]) -> Result<String> {
    let rest = unknown(parts);
    let key: KeyData = decode_whole(alloc, part(rest, 0))?;
    answer(alloc, verify(alloc, &key, rest, &knower(alloc, parts)?))
}

/// The verifier that knows one signature: by the algorithm that the first byte string names, of the
/// message that is the second, the bytes of the third.
pub(crate) fn knower(alloc: Global, parts: &[Vec<u8>]) -> Result<Only> {
    let algorithm = Algorithm::new(alloc, text(parts, 0)?)?;
    let message = part(parts, 1).to_vec(alloc)?;
    Ok(Only::new(algorithm, message, part(parts, 2).to_vec(alloc)?))
}

/// The byte strings after those.
pub(crate) fn unknown(parts: &[Vec<u8>]) -> &[Vec<u8>] {
    parts.get(3..).unwrap_or(&[])
}

fn answer(alloc: Global, verified: Result<()>) -> Result<String> {
    match verified {
        Ok(()) => Ok(String::from_str(alloc, "accepted")?),
        Err(Error::AlgorithmUnsupported { algorithm }) => {
            Ok(format!(in alloc; "not asked under {algorithm}")?)
        }
        Err(error) => Err(error),
    }
}

/// Whether the same key as a slice accepts the same signature as a slice.
pub(crate) fn accepted_slice(alloc: Global, parts: &[Vec<u8>]) -> Result<String> {
    word(alloc, accepts_slice(alloc, parts, &AcceptAll)?)
}

/// The same by a verifier that knows one signature.
pub(crate) fn known_slice(alloc: Global, parts: &[Vec<u8>]) -> Result<String> {
    let knower = knower(alloc, parts)?;
    word(alloc, accepts_slice(alloc, unknown(parts), &knower)?)
}

fn word(alloc: Global, accepts: bool) -> Result<String> {
    Ok(String::from_str(alloc, if accepts { "accepted" } else { "refused" })?)
}

pub(crate) fn accepts_slice<V: RawVerifier>(
    alloc: Global,
    parts: &[Vec<u8>],
    verifier: &V,
) -> Result<bool> {
    let key = KeyDataRef::from_bytes(part(parts, 0))?;
    let signature = SignatureRef::from_bytes(part(parts, 2))?;
    Ok(key.accepts(alloc, part(parts, 1), &signature, verifier)?)
}
