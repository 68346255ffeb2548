//! Asks `user_keys` whom a text lets in.

use crate::words::{NO_LINE, bytes, host_name, number, text};
use ssh_key::revocation::RevokedKeys;
use ssh_key::{HashAlg, PublicKey, RawVerifier, Result};
use sshkey_doubles::{AcceptAll, RefuseAll};
use std::alloc::Global;
use std::net::IpAddr;
use user_keys::{
    UserGrant, UserLogin, UserRefusal, log_in_by_certificate, log_in_by_key, log_in_by_principal,
};

/// Whether a login is let in, and to what.
pub(crate) type Admission = std::result::Result<UserGrant, UserRefusal>;

/// Whether the login is let in that a line asks about: by a certificate that is signed, or forged.
/// Fails where the line is no question.
pub(crate) fn ask(alloc: Global, question: &str, words: &[&str]) -> Result<Admission> {
    match (question, words) {
        ("user-key", words) => key(alloc, &Words::read(alloc, words)?),
        ("user-certificate", ["signed", words @ ..]) => certificate(alloc, words, &AcceptAll),
        ("user-certificate", ["forged", words @ ..]) => certificate(alloc, words, &RefuseAll),
        ("user-principal", ["signed", words @ ..]) => principal(alloc, words, &AcceptAll),
        ("user-principal", ["forged", words @ ..]) => principal(alloc, words, &RefuseAll),
        _ => Err(NO_LINE),
    }
}

fn key(alloc: Global, words: &Words) -> Result<Admission> {
    let offered = PublicKey::from_bytes(alloc, &words.shown)?;
    Ok(log_in_by_key(
        alloc,
        &words.login(),
        offered.key_data(),
        &RevokedKeys::from_bytes(alloc, &words.revoked),
    ))
}

fn certificate<V: RawVerifier>(alloc: Global, words: &[&str], verifier: &V) -> Result<Admission> {
    let words = Words::read(alloc, words)?;
    Ok(log_in_by_certificate(
        alloc,
        &words.login(),
        &words.shown,
        &RevokedKeys::from_bytes(alloc, &words.revoked),
        verifier,
    ))
}

fn principal<V: RawVerifier>(alloc: Global, words: &[&str], verifier: &V) -> Result<Admission> {
    let [authority, words @ ..] = words else {
        return Err(NO_LINE);
    };
    let words = Words::read(alloc, words)?;
    let authority = PublicKey::from_bytes(alloc, &bytes(alloc, authority)?)?;
    let trusted = authority.fingerprint(alloc, HashAlg::Sha256)?;
    Ok(log_in_by_principal(
        alloc,
        &words.login(),
        &words.shown,
        &[trusted],
        &RevokedKeys::from_bytes(alloc, &words.revoked),
        verifier,
    ))
}

/// What is asked about.
#[derive(Drop)]
struct Words {
    unix_timestamp: u64,
    text: Vec<u8>,
    user: String,
    /// The bytes of the key or of the certificate that the client shows.
    shown: Vec<u8>,
    client: IpAddr,
    host: Option<String>,
    /// The bytes of a file of what is revoked.
    revoked: Vec<u8>,
}

impl Words {
    /// Reads the words of a line after those that say what it asks.
    fn read(alloc: Global, words: &[&str]) -> Result<Words> {
        let [second, keys, user, shown, client, host, revoked] = words else {
            return Err(NO_LINE);
        };
        Ok(Words {
            unix_timestamp: number(second)?,
            text: bytes(alloc, keys)?,
            user: text(alloc, user)?,
            shown: bytes(alloc, shown)?,
            client: client.parse::<IpAddr>().map_err(|_| NO_LINE)?,
            host: host_name(alloc, host)?,
            revoked: bytes(alloc, revoked)?,
        })
    }

    /// The login that is asked for.
    fn login(&self) -> UserLogin<'_> {
        UserLogin {
            text: &self.text,
            user: &self.user,
            client: Some(self.client),
            host: self.host.as_deref(),
            unix_timestamp: self.unix_timestamp,
            least_rsa_bits: 0,
        }
    }
}
