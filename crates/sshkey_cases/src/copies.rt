//! Copies. Each is written where the value is let go of, and not in the function that copies it.

use crate::bytes::{NO_LINE, part, text};
use sshkey_authorized_keys::{ConfigOpts, Entry as AuthorizedKey};
use sshkey_base::{Algorithm, Encode, Result, decode_whole, encode_vec, erase_slice};
use sshkey_cert::Certificate;
use sshkey_keys::{KeyData, Signature};
use sshkey_known_hosts::{Entry as KnownHost, HostPatterns};
use sshkey_pairs::KeypairData;
use sshkey_private::PrivateKey;
use sshkey_public::PublicKey;
use sshkey_sshsig::SshSig;
use std::alloc::Global;

/// What is written of a copy of the value of that kind which all the bytes spell.
pub(crate) fn value(alloc: Global, kind: &str, parts: &[Vec<u8>]) -> Result<String> {
    let bytes = part(parts, 0);
    match kind {
        "algorithm" => digits(alloc, algorithm(alloc, text(parts, 0)?)),
        "key" => digits(alloc, key(alloc, bytes)),
        "signature" => digits(alloc, signature(alloc, bytes)),
        "ssh-signature" => digits(alloc, ssh_signature(alloc, bytes)),
        "certificate" => digits(alloc, certificate(alloc, bytes)),
        "pair" => digits(alloc, pair(alloc, bytes)),
        "private-key" => digits(alloc, private_key(alloc, bytes)),
        _ => text_of_copy(alloc, kind, text(parts, 0)?),
    }
}

fn digits<T: Encode + Drop>(alloc: Global, copy: Result<T>) -> Result<String> {
    let mut written = encode_vec(alloc, &copy?)?;
    let digits = hex::encode(alloc, &written)?;
    erase_slice(&mut written);
    Ok(digits)
}

fn algorithm(alloc: Global, name: &str) -> Result<Algorithm> {
    Ok(Algorithm::new(alloc, name)?.try_clone(alloc)?)
}

fn key(alloc: Global, bytes: &[u8]) -> Result<KeyData> {
    let read: KeyData = decode_whole(alloc, bytes)?;
    Ok(read.try_clone(alloc)?)
}

fn signature(alloc: Global, bytes: &[u8]) -> Result<Signature> {
    Ok(Signature::from_bytes(alloc, bytes)?.try_clone(alloc)?)
}

fn ssh_signature(alloc: Global, bytes: &[u8]) -> Result<SshSig> {
    SshSig::from_bytes(alloc, bytes)?.try_clone(alloc)
}

fn certificate(alloc: Global, bytes: &[u8]) -> Result<Certificate> {
    Certificate::from_bytes(alloc, bytes)?.try_clone(alloc)
}

fn pair(alloc: Global, bytes: &[u8]) -> Result<KeypairData> {
    let read: KeypairData = decode_whole(alloc, bytes)?;
    Ok(read.try_clone(alloc)?)
}

fn private_key(alloc: Global, bytes: &[u8]) -> Result<PrivateKey> {
    PrivateKey::from_bytes(alloc, bytes)?.try_clone(alloc)
}

fn text_of_copy(alloc: Global, kind: &str, text: &str) -> Result<String> {
    match kind {
        "public-key" => line_of_key(alloc, text),
        "authorized-key" => line_of_authorized_key(alloc, text),
        "known-host" => line_of_known_host(alloc, text),
        "host-patterns" => text_of_patterns(alloc, text),
        "config-options" => text_of_options(alloc, text),
        _ => Err(NO_LINE),
    }
}

fn line_of_key(alloc: Global, line: &str) -> Result<String> {
    PublicKey::to_openssh(&public_key(alloc, line)?, alloc)
}

fn public_key(alloc: Global, line: &str) -> Result<PublicKey> {
    PublicKey::from_openssh(alloc, line)?.try_clone(alloc)
}

fn line_of_authorized_key(alloc: Global, line: &str) -> Result<String> {
    AuthorizedKey::to_string(&authorized_key(alloc, line)?, alloc)
}

fn authorized_key(alloc: Global, line: &str) -> Result<AuthorizedKey> {
    AuthorizedKey::from_line(alloc, line)?.try_clone(alloc)
}

fn line_of_known_host(alloc: Global, line: &str) -> Result<String> {
    KnownHost::to_string(&known_host(alloc, line)?, alloc)
}

fn known_host(alloc: Global, line: &str) -> Result<KnownHost> {
    KnownHost::from_line(alloc, line)?.try_clone(alloc)
}

fn text_of_patterns(alloc: Global, text: &str) -> Result<String> {
    HostPatterns::to_string(&host_patterns(alloc, text)?, alloc)
}

fn host_patterns(alloc: Global, text: &str) -> Result<HostPatterns> {
    HostPatterns::from_text(alloc, text)?.try_clone(alloc)
}

fn text_of_options(alloc: Global, text: &str) -> Result<String> {
    Ok(config_options(alloc, text)?.as_str().to_string(alloc)?)
}

fn config_options(alloc: Global, text: &str) -> Result<ConfigOpts> {
    ConfigOpts::new(alloc, text)?.try_clone(alloc)
}
