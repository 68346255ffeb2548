//! SSH signatures of messages, and what they sign.

use crate::bytes::{part, text};
use crate::signatures::{knower, unknown};
use sshkey_base::{HashAlg, Result};
use sshkey_doubles::{AcceptAll, Fixed};
use sshkey_keys::RawVerifier;
use sshkey_kinds::Ed25519PublicKey;
use sshkey_public::PublicKey;
use sshkey_sshsig::SshSig;
use std::alloc::Global;

/// What is signed in the namespace that the first byte string is, by the hash that the second one
/// names, of the message that is the third.
pub(crate) fn data(alloc: Global, parts: &[Vec<u8>]) -> Result<String> {
    let hash = HashAlg::new(text(parts, 1)?)?;
    let signed = SshSig::signed_data(alloc, text(parts, 0)?, hash, part(parts, 2))?;
    Ok(hex::encode(alloc, &signed)?)
}

/// What the SSH signature that the first byte string spells signs of the message that is the
/// second.
pub(crate) fn bytes(alloc: Global, parts: &[Vec<u8>]) -> Result<String> {
    let signature = SshSig::from_bytes(alloc, part(parts, 0))?;
    signed(alloc, &signature, part(parts, 1))
}

fn signed(alloc: Global, signature: &SshSig, message: &[u8]) -> Result<String> {
    Ok(hex::encode(alloc, &signature.signed_bytes(alloc, message)?)?)
}

/// The same with the digest of the message in place of the message.
pub(crate) fn data_of_digest(alloc: Global, parts: &[Vec<u8>]) -> Result<String> {
    let hash = HashAlg::new(text(parts, 1)?)?;
    let signed = SshSig::signed_data_of_digest(alloc, text(parts, 0)?, hash, part(parts, 2))?;
    Ok(hex::encode(alloc, &signed)?)
}

/// What the SSH signature that the first byte string spells signs of a message with the digest that
/// is the second.
pub(crate) fn bytes_of_digest(alloc: Global, parts: &[Vec<u8>]) -> Result<String> {
    let signature = SshSig::from_bytes(alloc, part(parts, 0))?;
    let signed = signature.signed_bytes_of_digest(alloc, part(parts, 1))?;
    Ok(hex::encode(alloc, &signed)?)
}

/// The SSH signature that the holder of the key which the first byte string is makes in the
/// namespace that is the second, by the hash that the third names, of the message that is the
/// fourth. It signs with 64 bytes 00.
pub(crate) fn made(alloc: Global, parts: &[Vec<u8>]) -> Result<String> {
    let signature = signature_of(alloc, parts)?;
    written(alloc, &signature)
}

fn signature_of(alloc: Global, parts: &[Vec<u8>]) -> Result<SshSig> {
    let key = Ed25519PublicKey::try_from(part(parts, 0))?;
    made_by(alloc, &Fixed::new(key), parts)
}

fn written(alloc: Global, signature: &SshSig) -> Result<String> {
    Ok(hex::encode(alloc, &signature.to_bytes(alloc)?)?)
}

fn made_by(alloc: Global, signer: &Fixed, parts: &[Vec<u8>]) -> Result<SshSig> {
    let hash = HashAlg::new(text(parts, 2)?)?;
    SshSig::sign(alloc, signer, text(parts, 1)?, hash, part(parts, 3))
}

/// Whether the SSH signature that the last byte string spells is one by the key of the line that is
/// the first, in the namespace that is the second, of the message that is the third. The verifier
/// accepts all that it is asked.
pub(crate) fn verified(alloc: Global, parts: &[Vec<u8>]) -> Result<String> {
    verified_by(alloc, parts, &AcceptAll)
}

/// The same of all but the first three byte strings, by a verifier that knows that signature.
pub(crate) fn known(alloc: Global, parts: &[Vec<u8>]) -> Result<String> {
    verified_by(alloc, unknown(parts), &knower(alloc, parts)?)
}

fn verified_by<V: RawVerifier>(alloc: Global, parts: &[Vec<u8>], verifier: &V) -> Result<String> {
    let key = PublicKey::from_openssh(alloc, text(parts, 0)?)?;
    verify(alloc, &key, parts, verifier)?;
    Ok(String::from_str(alloc, "verified")?)
}

fn verify<V: RawVerifier>(
    alloc: Global,
    key: &PublicKey,
    parts: &[Vec<u8>],
    verifier: &V,
) -> Result<()> {
    let signature = SshSig::from_bytes(alloc, part(parts, 3))?;
    key.verify(alloc, text(parts, 1)?, part(parts, 2), &signature, verifier)
}
