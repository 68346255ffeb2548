//! Certificates judged at a second and under authorities, by a verifier that accepts each
//! signature, and by one that knows one.

use crate::bytes::{NO_LINE, part, text};
use crate::signatures::{knower, unknown};
use sshkey_base::{Result, decode_whole};
use sshkey_cert::Certificate;
use sshkey_cert_ref::CertificateRef;
use sshkey_doubles::AcceptAll;
use sshkey_keys::{Fingerprint, RawVerifier};
use std::alloc::Global;

/// Whether the certificate that the first byte string spells is valid at the second that the second
/// one spells, where the third one has the fingerprints of authorities; for the principal that the
/// fourth one is, where there are four.
pub(crate) fn owned(alloc: Global, parts: &[Vec<u8>]) -> Result<String> {
    let certificate = Certificate::from_bytes(alloc, part(parts, 0))?;
    answer(alloc, judge(alloc, &certificate, parts, &AcceptAll))
}

fn judge<V: RawVerifier>(
    alloc: Global,
    certificate: &Certificate,
    parts: &[Vec<u8>],
    verifier: &V,
) -> Result<()> {
    let (secs, given, count) = moment(alloc, parts)?;
    let given = given.get(..count).unwrap_or(&given);
    match parts {
        [_, _, _, name] => {
            let name = std::str::from_utf8(name)?;
            certificate.validate_principal_at(alloc, secs, name, given, verifier)
        }
        _ => certificate.validate_at(alloc, secs, given, verifier),
    }
}

/// The same of the certificate as a slice.
pub(crate) fn slice(alloc: Global, parts: &[Vec<u8>]) -> Result<String> {
    let certificate = CertificateRef::from_bytes(part(parts, 0))?;
    answer(alloc, check_slice(alloc, &certificate, parts, &AcceptAll))
}

/// Whether it is valid, or why not.
pub(crate) fn is_valid_slice(alloc: Global, parts: &[Vec<u8>]) -> Result<bool> {
    let certificate = CertificateRef::from_bytes(part(parts, 0))?;
    check_slice(alloc, &certificate, parts, &AcceptAll)?;
    Ok(true)
}

fn check_slice<V: RawVerifier>(
    alloc: Global,
    certificate: &CertificateRef<'_>,
    parts: &[Vec<u8>],
    verifier: &V,
) -> Result<()> {
    let (secs, given, count) = moment(alloc, parts)?;
    let given = given.get(..count).unwrap_or(&given);
    match parts {
        [_, _, _, name] => {
            let name = std::str::from_utf8(name)?;
            certificate.validate_principal_at(alloc, secs, name, given, verifier)
        }
        _ => certificate.validate_at(alloc, secs, given, verifier),
    }
}

/// The second, and how many fingerprints are given, of which there are two at the most.
fn moment(alloc: Global, parts: &[Vec<u8>]) -> Result<(u64, [Fingerprint; 2], usize)> {
    let secs: u64 = decode_whole(alloc, part(parts, 1))?;
    let mut given = [Fingerprint::Sha256([0; 32]); 2];
    let mut count: usize = 0;
    for word in text(parts, 2)?.split_ascii_whitespace() {
        let fingerprint = word.parse()?;
        match given.get_mut(count) {
            Some(place) => *place = fingerprint,
            None => return Err(NO_LINE),
        }
        count = count.saturating_add(1);
    }
    Ok((secs, given, count))
}

/// The same as `owned` of all but the first three byte strings, by a verifier that knows one
/// signature.
pub(crate) fn known(alloc: Global, parts: &[Vec<u8>]) -> Result<String> {
    let (knower, rest) = (knower(alloc, parts)?, unknown(parts));
    let certificate = Certificate::from_bytes(alloc, part(rest, 0))?;
    judge(alloc, &certificate, rest, &knower)?;
    answer(alloc, certificate.verify_signature(alloc, &knower))
}

/// The same of the certificate as a slice.
pub(crate) fn known_slice(alloc: Global, parts: &[Vec<u8>]) -> Result<String> {
    let (knower, rest) = (knower(alloc, parts)?, unknown(parts));
    let certificate = CertificateRef::from_bytes(part(rest, 0))?;
    check_slice(alloc, &certificate, rest, &knower)?;
    answer(alloc, certificate.verify_signature(alloc, &knower))
}

fn answer(alloc: Global, judged: Result<()>) -> Result<String> {
    judged?;
    Ok(String::from_str(alloc, "valid")?)
}
