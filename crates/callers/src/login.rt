//! Asks the login policy.

use crate::revoked::read_lists;
use crate::verified::Told;
use crate::words::{NO_LINE, blob, fingerprints, number};
use login_policy::{Client, Grant, Login, LoginRefusal, log_in};
use ssh_key::certificate::CertificateRefusal;
use ssh_key::{Certificate, Error, Result};
use std::alloc::{AllocError, Global};
use std::net::IpAddr;

/// Whether the user is let in from the address in the first word.
pub(crate) fn answer_from(
    alloc: Global,
    words: &[&str],
    least_rsa_bits: u32,
    told: &Told,
) -> Result<String> {
    let [client, words @ ..] = words else {
        return Err(NO_LINE);
    };
    let client = client.parse::<IpAddr>().map_err(|_| NO_LINE)?;
    answer(alloc, words, least_rsa_bits, Client::At(client), told)
}

/// Whether the user is let in from there, where an RSA key has so many bits at least. The words are
/// the user, the second, the certificate, the authorities' fingerprints in one word, and the lists
/// of what is revoked in all others.
pub(crate) fn answer(
    alloc: Global,
    words: &[&str],
    least_rsa_bits: u32,
    client: Client,
    told: &Told,
) -> Result<String> {
    let [user, seconds, certificate, authorities, revoked @ ..] = words else {
        return Err(NO_LINE);
    };
    let authorities = fingerprints(alloc, authorities)?;
    Certificate::from_openssh(alloc, certificate)?; // so the line is one of a certificate
    let certificate = blob(alloc, certificate)?;
    let login = Login {
        certificate: &certificate,
        user,
        unix_timestamp: number(seconds)?,
        authorities: &authorities,
        least_rsa_bits,
        client,
    };
    match log_in(alloc, &login, &read_lists(alloc, revoked)?.as_slice(), told) {
        Ok(grant) => Ok(shown(alloc, &grant)?),
        Err(LoginRefusal::Certificate(error)) => Err(error),
        Err(LoginRefusal::NotNormalForm) => Ok(String::from_str(alloc, "no normal form")?),
        Err(LoginRefusal::UnacceptedKey) => Ok(String::from_str(alloc, "unaccepted key")?),
        Err(LoginRefusal::Invalid(refusal)) => Ok(String::from_str(alloc, invalid(refusal))?),
        Err(LoginRefusal::Elsewhere) => Ok(String::from_str(alloc, "elsewhere")?),
        Err(LoginRefusal::Revoked) => Ok(String::from_str(alloc, "revoked")?),
        Err(LoginRefusal::Memory) => Err(Error::Memory),
    }
}

/// What is wrong with a certificate.
fn invalid(refusal: CertificateRefusal) -> &'static str {
    match refusal {
        CertificateRefusal::Signature => "not signed",
        CertificateRefusal::Authority => "another authority",
        CertificateRefusal::Time => "no time",
        CertificateRefusal::Window => "out of the window",
        CertificateRefusal::Principal => "another user",
    }
}

/// What a login is bound to, and what is permitted.
fn shown(alloc: Global, grant: &Grant) -> std::result::Result<String, AllocError> {
    let mut text = String::from_str(alloc, "ok")?;
    if let Some(command) = &grant.force_command {
        text.push_str(" force-command=")?;
        text.push_str(command)?;
    }
    if grant.verify_required {
        text.push_str(" verify-required")?;
    }
    if grant.touch_required {
        text.push_str(" touch-required")?;
    }
    for (name, value) in grant.extensions.iter() {
        text.push(' ')?;
        text.push_str(name)?;
        text.push('=')?;
        text.push_str(value)?;
    }
    Ok(text)
}
