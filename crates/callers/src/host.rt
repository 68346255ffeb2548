//! Asks whether a host is the known one.

use crate::hashes::Hashes;
use crate::revoked::read_lists;
use crate::verified::Told;
use crate::words::{NO_LINE, blob, number, texts};
use host_keys::{HostCheck, HostRefusal, KnownBy, check_certificate, check_key};
use ssh_key::addresses::HostFault;
use ssh_key::{PublicKey, Result};
use std::alloc::{AllocError, Global};

/// Whether the key is the host's, by the texts of known_hosts in hexadecimal digits, and by the
/// lists of what is revoked, which are the words after the key.
pub(crate) fn key(
    alloc: Global,
    words: &[&str],
    least_rsa_bits: u32,
    hashes: &Hashes,
) -> Result<String> {
    let [known_hosts, host, port, key, revoked @ ..] = words else {
        return Err(NO_LINE);
    };
    let texts = texts(alloc, known_hosts)?;
    let key = PublicKey::from_openssh(alloc, key)?;
    let texts = borrowed(alloc, &texts)?;
    let login = HostCheck {
        texts: &texts,
        host,
        port: port_of(port)?,
        unix_timestamp: 0,
        least_rsa_bits,
    };
    let revoked = read_lists(alloc, revoked)?;
    let answer = check_key(alloc, &login, key.key_data(), hashes, &revoked.as_slice());
    shown(alloc, answer.map(|()| "ok"))
}

/// The same for a certificate, by the bytes of its line, at the second that is the word after it.
pub(crate) fn certificate(
    alloc: Global,
    words: &[&str],
    least_rsa_bits: u32,
    hashes: &Hashes,
    told: &Told,
) -> Result<String> {
    let [known_hosts, host, port, certificate, seconds, revoked @ ..] = words else {
        return Err(NO_LINE);
    };
    let texts = texts(alloc, known_hosts)?;
    let certificate = blob(alloc, certificate)?;
    let texts = borrowed(alloc, &texts)?;
    let login = HostCheck {
        texts: &texts,
        host,
        port: port_of(port)?,
        unix_timestamp: number(seconds)?,
        least_rsa_bits,
    };
    let revoked = read_lists(alloc, revoked)?;
    let answer = check_certificate(
        alloc,
        &login,
        &certificate,
        hashes,
        &revoked.as_slice(),
        told,
    );
    shown(alloc, answer.map(name_of))
}

fn borrowed(alloc: Global, texts: &[String]) -> Result<Vec<&[u8]>> {
    let mut found = Vec::new(alloc);
    for text in texts {
        found.push(text.as_bytes())?;
    }
    Ok(found)
}

fn port_of(digits: &str) -> Result<u16> {
    match digits.parse::<u16>() {
        Ok(port) => Ok(port),
        Err(_) => Err(NO_LINE),
    }
}

fn name_of(by: KnownBy) -> &'static str {
    match by {
        KnownBy::Authority => "ok",
        KnownBy::CertifiedKey => "ok by its key",
    }
}

fn shown(alloc: Global, answer: std::result::Result<&str, HostRefusal>) -> Result<String> {
    let text = match answer {
        Ok(text) => text,
        Err(HostRefusal::Revoked) => "revoked",
        Err(HostRefusal::Unreadable) => "unreadable",
        Err(HostRefusal::Changed) => "changed",
        Err(HostRefusal::Unknown) => "unknown",
        Err(HostRefusal::UnacceptedKey) => "unaccepted key",
        Err(HostRefusal::NotNormalForm) => "no normal form",
        Err(HostRefusal::Host(HostFault::Port)) => "no port",
        Err(HostRefusal::Host(HostFault::Empty)) => "no host",
        Err(HostRefusal::Host(HostFault::Address)) => "no address",
        Err(HostRefusal::Certificate(error)) => return Err(error),
        Err(HostRefusal::Invalid(first)) => return Err(first.error()),
        Err(HostRefusal::Memory) => return Err(ssh_key::Error::Memory),
        Err(HostRefusal::Host(HostFault::Memory)) => return Err(ssh_key::Error::Memory),
    };
    Ok(String::from_str(alloc, text)?)
}
