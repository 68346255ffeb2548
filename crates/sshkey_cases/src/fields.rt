//! What certificates say of themselves, owned and as slices.

use crate::bytes::part;
use sshkey_base::{HashAlg, Result};
use sshkey_cert::Certificate;
use sshkey_cert_ref::{CertificateOptionsRef, CertificateRef};
use sshkey_cert_values::OptionsMap;
use sshkey_keys::SignatureQuestion;
use std::alloc::Global;

/// Whom no certificate of these questions names.
const NOBODY: &str = "nobody";

/// The fields of the certificate that the first byte string spells, its keys and its question; and
/// of the same as a slice its name, its question, and whether its fields are the same.
pub(crate) fn told(alloc: Global, parts: &[Vec<u8>]) -> Result<String> {
    let bytes = part(parts, 0);
    told_of(alloc, &Certificate::from_bytes(alloc, bytes)?, bytes)
}

fn told_of(alloc: Global, certificate: &Certificate, bytes: &[u8]) -> Result<String> {
    let fields = fields(alloc, certificate)?;
    let keys = keys(alloc, certificate)?;
    let asked = asked(alloc, &certificate.question(alloc)?, bytes)?;
    let slice = of_slice(alloc, &CertificateRef::from_bytes(bytes)?, certificate)?;
    Ok(format!(in alloc; "{fields}; {keys}, {asked}; {slice}")?)
}

/// The fields of a certificate.
fn fields(alloc: Global, certificate: &Certificate) -> Result<String> {
    let name = certificate.public_key().algorithm_name();
    let kind = word(
        certificate.cert_type().is_user(),
        certificate.cert_type().is_host(),
    );
    let (serial, key_id) = (certificate.serial(), certificate.key_id());
    let (nonce, comment) = (certificate.nonce().len(), certificate.comment());
    let (after, before) = (certificate.valid_after(), certificate.valid_before());
    let forever = if certificate.is_forever() {
        " forever"
    } else {
        ""
    };
    let lists = lists(alloc, certificate)?;
    Ok(format!(in alloc;
        "{name} {kind} {serial} '{key_id}' '{comment}', nonce of {nonce}, {after} to {before}{forever}{lists}"
    )?)
}

fn word(is_user: bool, is_host: bool) -> &'static str {
    match (is_user, is_host) {
        (true, false) => "user",
        (false, true) => "host",
        _ => "of no type",
    }
}

/// The principals that a certificate names and allows, or all; its critical options and its
/// extensions.
fn lists(alloc: Global, certificate: &Certificate) -> Result<String> {
    let mut shown = String::from_str(alloc, ", for")?;
    for principal in certificate.valid_principals() {
        if certificate.allows_principal(principal) {
            shown.push_str(" ")?;
            shown.push_str(principal)?;
        }
    }
    if certificate.allows_principal(NOBODY) {
        shown.push_str(" all")?;
    }
    shown.push_str(", critical")?;
    add_options(alloc, &mut shown, certificate.critical_options())?;
    shown.push_str(", extensions")?;
    add_options(alloc, &mut shown, certificate.extensions())?;
    Ok(shown)
}

/// Adds how many options there are, and each with the value that its name has.
fn add_options(alloc: Global, shown: &mut String, options: &OptionsMap) -> Result<()> {
    shown.push_str(&format!(in alloc; " {}", options.len())?)?;
    for (name, _) in options.iter() {
        match options.get(name) {
            Some(value) => shown.push_str(&format!(in alloc; " {name}={value}")?)?,
            None => shown.push_str(" not found")?,
        }
    }
    Ok(())
}

/// The fingerprints of the certified key and of the authority, and the algorithm of the signature.
fn keys(alloc: Global, certificate: &Certificate) -> Result<String> {
    let key = certificate
        .public_key()
        .fingerprint(alloc, HashAlg::Sha256)?;
    let authority = certificate
        .signature_key()
        .fingerprint(alloc, HashAlg::Sha256)?;
    let algorithm = certificate.signature().algorithm();
    Ok(format!(in alloc; "{key} by {authority}, {algorithm}")?)
}

/// Under which algorithm a verifier is asked, and about how many of the first bytes.
fn asked(alloc: Global, asked: &SignatureQuestion<'_>, bytes: &[u8]) -> Result<String> {
    match asked.question() {
        Some(question) if bytes.starts_with(question.message()) => {
            let (algorithm, len) = (question.algorithm(), question.message().len());
            Ok(format!(in alloc; "asked under {algorithm} about {len}")?)
        }
        Some(_) => Ok(String::from_str(alloc, "asked about other bytes")?),
        None => Ok(String::from_str(alloc, "not asked")?),
    }
}

fn of_slice(alloc: Global, slice: &CertificateRef<'_>, owned: &Certificate) -> Result<String> {
    let name = slice.certificate_name();
    let is_same = has_fields(slice, owned) && has_lists(slice, owned);
    let word = if is_same && is_owned(alloc, slice, owned)? {
        "same"
    } else {
        "other"
    };
    let signed = slice.signed_bytes().unwrap_or(&[]).len();
    let asked = asked(alloc, &slice.question(alloc)?, slice.as_bytes())?;
    Ok(format!(in alloc; "{name}, the {word} fields, signed over {signed}, {asked}")?)
}

fn is_owned(alloc: Global, slice: &CertificateRef<'_>, owned: &Certificate) -> Result<bool> {
    Ok(slice.to_certificate(alloc)? == *owned)
}

fn has_fields(slice: &CertificateRef<'_>, owned: &Certificate) -> bool {
    slice.cert_type() == owned.cert_type()
        && slice.serial() == owned.serial()
        && slice.key_id() == owned.key_id()
        && slice.nonce() == owned.nonce()
        && slice.valid_after() == owned.valid_after()
        && slice.valid_before() == owned.valid_before()
        && slice.is_forever() == owned.is_forever()
        && slice.reserved().is_empty()
}

fn has_lists(slice: &CertificateRef<'_>, owned: &Certificate) -> bool {
    let principals = owned.valid_principals();
    slice.valid_principals().is_empty() == principals.is_empty()
        && slice.allows_principal(NOBODY) == principals.is_empty()
        && principals.iter().all(|it| slice.allows_principal(it))
        && has_options(slice.critical_options(), owned.critical_options())
        && has_options(slice.extensions(), owned.extensions())
}

fn has_options(slice: CertificateOptionsRef<'_>, owned: &OptionsMap) -> bool {
    slice.is_empty() == owned.is_empty()
        && owned
            .iter()
            .all(|(name, value)| slice.get(name) == Some(value.as_str()))
}
