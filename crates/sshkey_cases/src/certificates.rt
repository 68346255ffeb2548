//! Parts of certificates that take memory of their own.

use crate::bytes::text;
use sshkey_base::{Encode, HashAlg, Result, encode_vec};
use sshkey_cert::{Certificate, KeyOrCertificate};
use sshkey_cert_ref::CertificateRef;
use sshkey_cert_values::OptionsMap;
use sshkey_doubles::AcceptAll;
use sshkey_public::PublicKey;
use std::alloc::Global;

/// The algorithm of the key in the certificate of a line, which a verifier that accepts all
/// accepts, and the line that is written of it.
pub(crate) fn line(alloc: Global, line: &str) -> Result<String> {
    let certificate = Certificate::from_openssh(alloc, line)?;
    algorithm_and_line(alloc, &certificate)
}

fn algorithm_and_line(alloc: Global, certificate: &Certificate) -> Result<String> {
    certificate.verify_signature(alloc, &AcceptAll)?;
    let algorithm = certificate.algorithm(alloc)?;
    let line = certificate.to_openssh(alloc)?;
    Ok(format!(in alloc; "{algorithm}, signed: {line}")?)
}

/// Whether all the bytes are a key or a certificate, and what is written of it.
pub(crate) fn key_or_certificate(alloc: Global, bytes: &[u8]) -> Result<String> {
    let (kind, written) = match &KeyOrCertificate::from_bytes(alloc, bytes)? {
        KeyOrCertificate::Key(key) => ("key", digits(alloc, key)?),
        KeyOrCertificate::Certificate(certificate) => ("certificate", digits(alloc, certificate)?),
    };
    Ok(format!(in alloc; "{kind} {written}")?)
}

/// The key, the key of the authority and the signature of the certificate that all the bytes spell,
/// which a verifier that accepts all accepts.
pub(crate) fn parts(alloc: Global, bytes: &[u8]) -> Result<String> {
    let certificate = CertificateRef::from_bytes(bytes)?;
    certificate.verify_signature(alloc, &AcceptAll)?;
    let key = key(alloc, &certificate)?;
    let authority = authority(alloc, &certificate)?;
    let signature = signature(alloc, &certificate)?;
    Ok(format!(in alloc; "{key} signed by {authority} with {signature}")?)
}

fn key(alloc: Global, certificate: &CertificateRef<'_>) -> Result<String> {
    digits(alloc, &certificate.public_key(alloc)?)
}

fn authority(alloc: Global, certificate: &CertificateRef<'_>) -> Result<String> {
    digits(alloc, &certificate.signature_key(alloc)?)
}

fn signature(alloc: Global, certificate: &CertificateRef<'_>) -> Result<String> {
    digits(alloc, &certificate.signature(alloc)?)
}

fn digits<T: Encode>(alloc: Global, value: &T) -> Result<String> {
    let written = encode_vec(alloc, value)?;
    Ok(hex::encode(alloc, &written)?)
}

/// The algorithm, the fingerprint and the bytes of the public key that all the bytes spell.
pub(crate) fn public_key(alloc: Global, bytes: &[u8]) -> Result<String> {
    let key = PublicKey::from_bytes(alloc, bytes)?;
    algorithm_and_bytes(alloc, &key)
}

fn algorithm_and_bytes(alloc: Global, key: &PublicKey) -> Result<String> {
    let algorithm = key.algorithm(alloc)?;
    let fingerprint = key.fingerprint(alloc, HashAlg::Sha256)?;
    let digits = hex::encode(alloc, &key.to_bytes(alloc)?)?;
    Ok(format!(in alloc; "{algorithm}, {fingerprint}, {digits}")?)
}

/// What is written of the options of these names, each with its value after it.
pub(crate) fn options(alloc: Global, parts: &[Vec<u8>]) -> Result<String> {
    let mut pairs = Vec::new(alloc);
    for at in 0..parts.len() / 2 {
        let name = String::from_str(alloc, text(parts, 2 * at)?)?;
        pairs.push((name, String::from_str(alloc, text(parts, 2 * at + 1)?)?))?;
    }
    digits(alloc, &OptionsMap::from_pairs(alloc, pairs)?)
}
