//! Certificates: verifiers that know one or have no answer, and files.

use super::support::is_wanted;
use base64::engine::general_purpose::STANDARD;
use sshkey_base::{Algorithm, Error, HashAlg};
use sshkey_cert::{Certificate, contains_fingerprint};
use sshkey_cert_ref::CertificateRef;
use sshkey_doubles::{Only, OutOfMemory};
use sshkey_keys::Fingerprint;
use std::alloc::{Alloc, Global};
use std::fs::{self, Files};
use std::io::ErrorKind;

/// A certificate that OpenSSH made, with one critical option.
fn stored() -> &'static str {
    "ssh-ed25519-cert-v01@openssh.com AAAAIHNzaC1lZDI1NTE5LWNlcnQtdjAxQG9wZW5zc2guY29tAAAAIBW/4zLqXWROWmN1sPgdySnH1GUsEFBjFrRwKKw71BoBAAAAIH1MFwI1oRdEifXgBQvWQfCBBtA/Pi8YCUE/I3wXFJo2AAAAAAAAAAAAAAABAAAAA2ZvbwAAAAAAAAAAAAAAAH//////////AAAAIwAAABFoZWxsb0BleGFtcGxlLmNvbQAAAAoAAAAGZm9vYmFyAAAAAAAAAAAAAAAzAAAAC3NzaC1lZDI1NTE5AAAAIH1MFwI1oRdEifXgBQvWQfCBBtA/Pi8YCUE/I3wXFJo2AAAAUwAAAAtzc2gtZWQyNTUxOQAAAEDRoPdI48KyoaLgaDZsSGs80qBeYQOXBd84CX8GYzFt/L21rxF1EeuPOkgsx7Q39WllXp+FgMMojsHftK/DJHEN"
}

/// All that follows the first word of its line.
fn blob(alloc: Global) -> Option<Vec<u8>> {
    let (_, word) = stored().split_once(' ')?;
    STANDARD.decode(alloc, word.as_bytes()).ok()
}

/// The SHA-256 fingerprint of the key that signed, and the SHA-512 one.
fn authorities(alloc: Global, certificate: &Certificate) -> Option<[Fingerprint; 2]> {
    let key = certificate.signature_key();
    let sha256 = key.fingerprint(alloc, HashAlg::Sha256).ok()?;
    let sha512 = key.fingerprint(alloc, HashAlg::Sha512).ok()?;
    Some([sha256, sha512])
}

/// The verifier that knows the certificate's signature of its first 249 bytes.
fn knower(alloc: Global, certificate: &Certificate) -> Option<Only> {
    let signed = Vec::from_slice(alloc, blob(alloc)?.get(..249)?).ok()?;
    let signature = Vec::from_slice(alloc, certificate.signature().as_bytes()).ok()?;
    Some(Only::new(Algorithm::Ed25519, signed, signature))
}

fn is_valid_to(alloc: Global, certificate: &Certificate, secs: u64, only: &Only) -> bool {
    match authorities(alloc, certificate) {
        Some(given) => is_wanted(certificate.validate_at(alloc, secs, &given, only), Ok(())),
        None => false,
    }
}

fn is_valid(alloc: Global, certificate: &Certificate) -> bool {
    match knower(alloc, certificate) {
        Some(only) => is_valid_to(alloc, certificate, certificate.valid_after(), &only),
        None => false,
    }
}

/// It has one critical option.
fn has_option(certificate: &Certificate) -> bool {
    let options = certificate.critical_options();
    options.contains_key("hello@example.com") && !options.contains_key("no-option")
}

/// The SHA-256 digest counts, the SHA-512 one never does.
fn one_digest_counts(given: [Fingerprint; 2]) -> bool {
    contains_fingerprint(&given, given[0].as_bytes())
        && !contains_fingerprint(&given, given[1].as_bytes())
        && !contains_fingerprint(&given[1..], given[0].as_bytes())
}

/// A verifier that is out of memory has no answer.
fn is_unanswered(alloc: Global, certificate: &Certificate, given: [Fingerprint; 2]) -> bool {
    let at = certificate.valid_after();
    is_wanted(
        certificate.validate_at(alloc, at, &given, &OutOfMemory),
        Err(Error::Memory),
    )
}

fn is_unanswered_as_slice(alloc: Global, bytes: &[u8], given: [Fingerprint; 2]) -> bool {
    match CertificateRef::from_bytes(bytes) {
        Ok(slice) => {
            let at = slice.valid_after();
            is_wanted(
                slice.validate_at(alloc, at, &given, &OutOfMemory),
                Err(Error::Memory),
            )
        }
        Err(_) => false,
    }
}

fn holds(alloc: Global, bytes: &[u8], certificate: &Certificate) -> bool {
    match authorities(alloc, certificate) {
        Some(given) => {
            has_option(certificate)
                && one_digest_counts(given)
                && is_unanswered(alloc, certificate, given)
                && is_unanswered_as_slice(alloc, bytes, given)
                && is_valid(alloc, certificate)
        }
        None => false,
    }
}

fn stored_holds(alloc: Global) -> bool {
    match (Certificate::from_openssh(alloc, stored()), blob(alloc)) {
        (Ok(certificate), Some(bytes)) => holds(alloc, &bytes, &certificate),
        _ => false,
    }
}

#[test]
fn verifiers_that_know_it_or_have_no_answer(rt: HostRuntime) {
    assert!(rt; stored_holds(rt.alloc()));
}

/// No file of that name is found.
fn is_missing<R: Files>(rt: &R, alloc: Global, path: &str) -> bool {
    is_wanted(
        Certificate::read_file(rt, alloc, path).err(),
        Some(Error::Io(ErrorKind::NotFound)),
    )
}

#[test]
fn a_missing_file_is_not_found(rt: HostRuntime) {
    assert!(rt; is_missing(&rt, rt.alloc(), "no-such-cert.pub"));
}

/// The fault that is met where the certificate of the line is written.
fn fault_of_writing<R: Files>(rt: &R, alloc: Global, path: &str) -> Option<Error> {
    match Certificate::from_openssh(alloc, stored()) {
        Ok(certificate) => certificate.write_file(rt, alloc, path).err(),
        Err(_) => None,
    }
}

#[test]
fn a_full_device_is_not_written(rt: HostRuntime) {
    let met = fault_of_writing(&rt, rt.alloc(), "/dev/full");
    assert!(rt; is_wanted(met, Some(Error::Io(ErrorKind::StorageFull))));
}

/// Writes the certificate of the line into the file.
fn is_in_file<R: Files>(rt: &R, alloc: Global, path: &str) -> bool {
    match Certificate::from_openssh(alloc, stored()) {
        Ok(certificate) => certificate.write_file(rt, alloc, path).is_ok(),
        Err(_) => false,
    }
}

/// The file has this text.
fn has_text<R: Files + Alloc>(rt: &R, path: &str, text: &str) -> bool {
    match fs::read_to_string(rt, path) {
        Ok(found) => found.as_str() == text,
        Err(_) => false,
    }
}

#[test]
fn a_written_file_has_the_line_alone(rt: HostRuntime) {
    assert!(rt; is_in_file(&rt, rt.alloc(), "written-cert.pub"));
    assert!(rt; has_text(&rt, "written-cert.pub", stored()));
    assert!(rt; fs::remove_file(&rt, "written-cert.pub").is_ok());
}
