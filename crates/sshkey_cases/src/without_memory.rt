//! Calls that promise to take no memory. Of each question `checks/refused-memory` counts the
//! requests for memory: one is expected, for the text of the answer.

use crate::bytes::{NO_LINE, part, text};
use crate::{addresses, krl, signatures, validity};
use sshkey_authorized_keys::OpenSshOptionsIter;
use sshkey_base::{
    Algorithm, Decode, EcdsaCurve, Encode, Error, HashAlg, Reader, Result, SliceWriter,
    decode_whole, encoding,
};
use sshkey_base64::{Base64Reader, write_base64};
use sshkey_cert_ref::{CertificateOptionsRef, PrincipalsRef};
use sshkey_ciphers::{Cipher, KdfAlg};
use sshkey_doubles::AcceptAll;
use sshkey_keys::{Fingerprint, KeyData};
use sshkey_keys_ref::{KeyDataRef, SignatureRef};
use sshkey_pair_kinds::EcdsaPrivateKey;
use sshkey_public::{PublicKey, write_line};
use std::alloc::Global;
use std::io::Write;

/// What no value of these questions passes.
const ROOM: usize = 512;

/// Whether the bytes are a value of that kind, which is the same where it is written.
pub(crate) fn value(alloc: Global, kind: &str, parts: &[Vec<u8>]) -> Result<String> {
    let bytes = part(parts, 0);
    let holds = match kind {
        "key" => is_kept::<KeyData>(alloc, bytes)?,
        "scalar" => is_kept::<EcdsaPrivateKey<32>>(alloc, bytes)?,
        "line" => is_line(alloc, text(parts, 0)?)?,
        "broken-line" => is_broken(alloc, text(parts, 0)?)?,
        "base64" => is_word(text(parts, 0)?, part(parts, 1))?,
        "fingerprint" => is_fingerprint(text(parts, 0)?)?,
        "fingerprint-of" => has_fingerprint(alloc, bytes, text(parts, 1)?)?,
        "key-slice" => KeyDataRef::from_bytes(bytes)?.as_bytes() == bytes,
        "signature-slice" => SignatureRef::from_bytes(bytes)?.as_bytes() == bytes,
        "texts-slice" => PrincipalsRef::from_bytes(bytes)?.contains(text(parts, 1)?),
        "options-slice" => CertificateOptionsRef::from_bytes(bytes)?
            .get(text(parts, 1)?)
            .is_some(),
        "openssh-options" => are_options(alloc, text(parts, 0)?)?,
        "validity-slice" => validity::is_valid_slice(alloc, parts)?,
        "accepted-slice" => signatures::accepts_slice(alloc, parts, &AcceptAll)?,
        "krl" => krl::is_revoked(alloc, parts)?,
        "addresses" => addresses::is_allowed(parts)?,
        _ => is_name(alloc, kind, text(parts, 0)?)?,
    };
    Ok(String::from_str(alloc, if holds { "yes" } else { "no" })?)
}

fn is_kept<T>(alloc: Global, bytes: &[u8]) -> Result<bool>
where
    T: Decode + Encode + Drop,
    Error: From<T::Error>,
{
    let value = decode_whole::<T, &[u8]>(alloc, bytes)?;
    Ok(is_written(&value, bytes))
}

fn is_written<T: Encode>(value: &T, bytes: &[u8]) -> bool {
    let mut room = [0; ROOM];
    let mut writer = SliceWriter::new(&mut room);
    value.encode(&mut writer).is_ok() && writer.written() == bytes
}

fn is_line(alloc: Global, line: &str) -> Result<bool> {
    let key = PublicKey::from_openssh(alloc, line)?;
    Ok(is_in_slice(&key, line)? && is_by_writer(&key, line))
}

/// Whether the line of a key has a word that is no Base64. With memory refused it says that.
fn is_broken(alloc: Global, line: &str) -> Result<bool> {
    match PublicKey::from_openssh(alloc, line) {
        Ok(_) => Ok(false),
        Err(Error::Encoding(encoding::Error::Base64)) => Ok(true),
        Err(error) => Err(error),
    }
}

fn is_in_slice(key: &PublicKey, line: &str) -> Result<bool> {
    let mut room = [0; ROOM];
    Ok(key.encode_openssh(&mut room)? == line)
}

fn is_by_writer(key: &PublicKey, line: &str) -> bool {
    let mut room = [0; ROOM];
    let mut writer = SliceWriter::new(&mut room);
    let answer = write_line(key.key_data(), key.comment(), &mut writer);
    answer.is_ok() && writer.written() == line.as_bytes()
}

/// Whether the text is options without a value.
fn are_options(alloc: Global, text: &str) -> Result<bool> {
    for option in OpenSshOptionsIter::new(text) {
        match option {
            Ok(option) => {
                if option.value(alloc)?.is_some() {
                    return Ok(false);
                }
            }
            Err(error) => return Err(error),
        }
    }
    Ok(true)
}

/// Whether the word stands for these bytes.
fn is_word(word: &str, bytes: &[u8]) -> Result<bool> {
    let mut reader = Base64Reader::new(word)?;
    let mut matches = true;
    for wanted in bytes {
        let mut read = [0];
        reader.read(&mut read)?;
        matches = matches && read == [*wanted];
    }
    let mut room = [0; ROOM];
    let mut writer = SliceWriter::new(&mut room);
    write_base64(bytes, &mut writer)?;
    Ok(matches && reader.is_finished() && writer.written() == word.as_bytes())
}

fn is_fingerprint(text: &str) -> Result<bool> {
    let fingerprint: Fingerprint = text.parse()?;
    is_shown(fingerprint, text)
}

fn is_shown(fingerprint: Fingerprint, text: &str) -> Result<bool> {
    let mut room = [0; ROOM];
    let mut left = room.as_mut_slice();
    write!(left, "{fingerprint}")?;
    let len = ROOM.saturating_sub(left.len());
    Ok(room.get(..len) == Some(text.as_bytes()))
}

/// Whether the SHA-256 fingerprint of the key is that of the text.
fn has_fingerprint(alloc: Global, bytes: &[u8], text: &str) -> Result<bool> {
    let fingerprint = KeyDataRef::from_bytes(bytes)?.fingerprint(alloc, HashAlg::Sha256)?;
    is_shown(fingerprint, text)
}

/// Whether the text is the name of a value of that kind.
fn is_name(alloc: Global, kind: &str, name: &str) -> Result<bool> {
    match kind {
        "algorithm" => Ok(Algorithm::new(alloc, name)?.as_str() == name),
        "private-name" => Ok(Algorithm::check(name).is_ok()),
        "certified-name" => Ok(Algorithm::check_certificate(name).is_ok()),
        "curve" => Ok(EcdsaCurve::new(name)?.as_str() == name),
        "hash" => Ok(HashAlg::new(name)?.as_str() == name),
        "cipher" => Ok(Cipher::new(name)?.as_str() == name),
        "derivation" => Ok(KdfAlg::new(name)?.as_str() == name),
        _ => Err(NO_LINE),
    }
}
