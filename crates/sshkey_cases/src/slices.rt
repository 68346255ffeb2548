//! Keys, signatures, certificates and lists that are slices of their input. A key, a signature and
//! a certificate are answered as their owned values are.

use crate::bytes::{part, text};
use crate::signatures;
use sshkey_base::{HashAlg, Result, encode_vec};
use sshkey_cert_ref::{CertificateOptionsRef, CertificateRef, PrincipalsRef};
use sshkey_keys_ref::{KeyDataRef, SignatureRef, take_body};
use std::alloc::Global;

/// Whether all the bytes are a key, and what is written of it, where these are other bytes.
pub(crate) fn key(alloc: Global, bytes: &[u8]) -> Result<String> {
    let key = KeyDataRef::from_bytes(bytes)?;
    match key.normal_bytes() {
        Some(_) => Ok(String::from_str(alloc, "read")?),
        None => renamed(alloc, &key),
    }
}

fn renamed(alloc: Global, key: &KeyDataRef<'_>) -> Result<String> {
    let written = encode_vec(alloc, &key.to_key_data(alloc)?)?;
    let digits = hex::encode(alloc, &written)?;
    Ok(format!(in alloc; "read, written as {digits}")?)
}

/// The fingerprints of the key that all the bytes spell.
pub(crate) fn fingerprints(alloc: Global, bytes: &[u8]) -> Result<String> {
    let key = KeyDataRef::from_bytes(bytes)?;
    let short = key.fingerprint(alloc, HashAlg::Sha256)?;
    let long = key.fingerprint(alloc, HashAlg::Sha512)?;
    Ok(format!(in alloc; "{short} {long}")?)
}

/// The signature that all the bytes spell.
pub(crate) fn signature(alloc: Global, bytes: &[u8]) -> Result<String> {
    let signature = SignatureRef::from_bytes(bytes)?;
    signatures::shown(alloc, &signature.to_signature(alloc)?, signature.as_bytes())
}

/// Whether all the bytes are a certificate, and what is written of it, where these are other bytes.
pub(crate) fn certificate(alloc: Global, bytes: &[u8]) -> Result<String> {
    let certificate = CertificateRef::from_bytes(bytes)?;
    match certificate.signed_bytes() {
        Some(_) => Ok(String::from_str(alloc, "read")?),
        None => spelled_anew(alloc, &certificate),
    }
}

fn spelled_anew(alloc: Global, certificate: &CertificateRef<'_>) -> Result<String> {
    let written = encoded(alloc, certificate)?;
    let digits = hex::encode(alloc, &written)?;
    Ok(format!(in alloc; "read, written as {digits}")?)
}

fn encoded(alloc: Global, certificate: &CertificateRef<'_>) -> Result<Vec<u8>> {
    let certificate = certificate.to_certificate(alloc)?;
    certificate.to_bytes(alloc)
}

/// How many bytes are the body of a key under the name that the first byte string is, at the front
/// of the second, and how many are left.
pub(crate) fn body(alloc: Global, parts: &[Vec<u8>]) -> Result<String> {
    let mut left = part(parts, 1);
    let body = take_body(text(parts, 0)?, &mut left)?;
    Ok(format!(in alloc; "{} taken, {} left", body.len(), left.len())?)
}

/// The texts of the list at the front, each after a space, and how many bytes are left.
pub(crate) fn texts(alloc: Global, bytes: &[u8]) -> Result<String> {
    let (texts, left) = PrincipalsRef::from_front(bytes)?;
    let mut answer = format!(in alloc; "{} left:", left.len())?;
    for text in texts.iter() {
        answer.push_str(" ")?;
        answer.push_str(text)?;
    }
    Ok(answer)
}

/// Whether the options at the front are written as they stand, each after a space, and how many
/// bytes are left.
pub(crate) fn options(alloc: Global, bytes: &[u8]) -> Result<String> {
    let (options, left) = CertificateOptionsRef::from_front(bytes)?;
    let form = if options.is_plain() {
        "plain"
    } else {
        "nested"
    };
    let mut answer = format!(in alloc; "{form}, {} left:", left.len())?;
    for (name, value) in options.iter() {
        answer.push_str(&format!(in alloc; " {name}={value}")?)?;
    }
    Ok(answer)
}
