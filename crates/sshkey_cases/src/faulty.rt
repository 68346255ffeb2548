//! Values from sources that break off.

use crate::bytes::{NO_LINE, part};
use sshkey_base::{Algorithm, Decode, Error, Mpint, Reader, Result, encoding};
use sshkey_cert::Certificate;
use sshkey_cert_values::OptionsMap;
use sshkey_ciphers::Kdf;
use sshkey_doubles::Faulty;
use sshkey_keys::{KeyData, Signature};
use sshkey_pair_kinds::EcdsaPrivateKey;
use sshkey_pairs::KeypairData;
use sshkey_private::PrivateKey;
use sshkey_sshsig::SshSig;
use std::alloc::Global;

/// How many bytes are missing after all the bytes of a value.
const BEHIND: u32 = 16;

/// At how many of the bytes a value of that kind is refused where its source breaks off in front of
/// them, or at which it is not.
pub(crate) fn value(alloc: Global, kind: &str, bytes: &[u8]) -> Result<String> {
    match kind {
        "algorithm" => each::<Algorithm>(alloc, bytes),
        "mpint" => each::<Mpint>(alloc, bytes),
        "list" => each::<Vec<String>>(alloc, bytes),
        "key" => each::<KeyData>(alloc, bytes),
        "signature" => each::<Signature>(alloc, bytes),
        "options" => each::<OptionsMap>(alloc, bytes),
        "certificate" => each::<Certificate>(alloc, bytes),
        "ssh-signature" => each::<SshSig>(alloc, bytes),
        "scalar" => each::<EcdsaPrivateKey<32>>(alloc, bytes),
        "derivation" => each::<Kdf>(alloc, bytes),
        "pair" => each::<KeypairData>(alloc, bytes),
        "private-key" => each::<PrivateKey>(alloc, bytes),
        _ => Err(NO_LINE),
    }
}

/// At how many of the places a length of `ffffffff` is refused as such, or at which it is not. The
/// source breaks off after that length, and the rest of the value is missing. A place is two bytes.
pub(crate) fn overlong(alloc: Global, kind: &str, parts: &[Vec<u8>]) -> Result<String> {
    let (bytes, places) = (part(parts, 0), part(parts, 1));
    match kind {
        "algorithm" => each_place::<Algorithm>(alloc, bytes, places),
        "mpint" => each_place::<Mpint>(alloc, bytes, places),
        "list" => each_place::<Vec<String>>(alloc, bytes, places),
        "key" => each_place::<KeyData>(alloc, bytes, places),
        "signature" => each_place::<Signature>(alloc, bytes, places),
        "options" => each_place::<OptionsMap>(alloc, bytes, places),
        "certificate" => each_place::<Certificate>(alloc, bytes, places),
        "ssh-signature" => each_place::<SshSig>(alloc, bytes, places),
        "scalar" => each_place::<EcdsaPrivateKey<32>>(alloc, bytes, places),
        "derivation" => each_place::<Kdf>(alloc, bytes, places),
        "pair" => each_place::<KeypairData>(alloc, bytes, places),
        "private-key" => each_place::<PrivateKey>(alloc, bytes, places),
        _ => Err(NO_LINE),
    }
}

fn each_place<T>(alloc: Global, bytes: &[u8], places: &[u8]) -> Result<String>
where
    T: Decode + Drop,
    Error: From<T::Error>,
{
    for place in places.chunks_exact(2) {
        let at = number_of(place)?;
        let refusal = refusal_at::<T>(alloc, bytes, at)?;
        if !is_invalid(&refusal)? {
            return otherwise_at(alloc, at, refusal);
        }
    }
    Ok(format!(in alloc; "invalid at each of {}", places.len() / 2)?)
}

fn number_of(place: &[u8]) -> Result<usize> {
    match place {
        [high, low] => Ok(u16::from_be_bytes([*high, *low]) as usize),
        _ => Err(NO_LINE),
    }
}

/// The refusal of the value whose length there is `ffffffff`, if its source breaks off after it.
fn refusal_at<T>(alloc: Global, bytes: &[u8], at: usize) -> Result<Option<Error>>
where
    T: Decode + Drop,
    Error: From<T::Error>,
{
    let mut front = Vec::from_slice(alloc, bytes.get(..at).unwrap_or(bytes))?;
    front.extend_from_slice(&[0xff; 4])?;
    let missing = u32::try_from(bytes.len().saturating_sub(front.len())).unwrap_or(u32::MAX);
    Ok(refusal::<T>(alloc, &mut Faulty::new(&front, missing)))
}

/// Whether it is for the length. Refused when out of memory alone.
fn is_invalid(refusal: &Option<Error>) -> Result<bool> {
    match refusal {
        Some(Error::Memory) => Err(Error::Memory),
        Some(Error::Encoding(encoding::Error::Length)) => Ok(true),
        _ => Ok(false),
    }
}

fn otherwise_at(alloc: Global, at: usize, refusal: Option<Error>) -> Result<String> {
    match refusal {
        Some(error) => Ok(format!(in alloc; "at {at}: {error}")?),
        None => Ok(format!(in alloc; "at {at}: read")?),
    }
}

/// The source of the first `len` bytes, which lacks the others.
fn cut(bytes: &[u8], len: usize) -> Faulty<'_> {
    let missing = u32::try_from(bytes.len().saturating_sub(len)).unwrap_or(u32::MAX);
    Faulty::new(bytes.get(..len).unwrap_or(bytes), missing)
}

fn each<T>(alloc: Global, bytes: &[u8]) -> Result<String>
where
    T: Decode + Drop,
    Error: From<T::Error>,
{
    for len in 0..bytes.len() {
        let mut source = cut(bytes, len);
        let refusal = refusal::<T>(alloc, &mut source);
        if !is_by_source(refusal, &source, bytes)? {
            return otherwise(alloc, len);
        }
    }
    let mut source = Faulty::new(bytes, BEHIND);
    let refusal = refusal::<T>(alloc, &mut source);
    all(alloc, refusal, &source, bytes)
}

/// The refusal of the value in front of a source.
fn refusal<T>(alloc: Global, source: &mut Faulty<'_>) -> Option<Error>
where
    T: Decode + Drop,
    Error: From<T::Error>,
{
    match T::decode(alloc, source) {
        Ok(_) => None,
        Err(error) => Some(Error::from(error)),
    }
}

/// Whether the refusal is the fault of the source, which is no longer than the bytes. Refused when
/// out of memory alone.
fn is_by_source(refusal: Option<Error>, source: &Faulty<'_>, bytes: &[u8]) -> Result<bool> {
    match refusal {
        Some(Error::Memory) => Err(Error::Memory),
        Some(Error::Encoding(encoding::Error::Base64)) => Ok(source.remaining_len() <= bytes.len()),
        _ => Ok(false),
    }
}

fn otherwise(alloc: Global, len: usize) -> Result<String> {
    Ok(format!(in alloc; "not refused by the source at {len}")?)
}

/// The answer if each beginning was refused. After it stands what becomes of all the bytes, if
/// these are refused, or if not all that is missing is left.
fn all(alloc: Global, refusal: Option<Error>, source: &Faulty<'_>, bytes: &[u8]) -> Result<String> {
    let count = bytes.len();
    let left = source.remaining_len();
    match refusal {
        Some(Error::Memory) => Err(Error::Memory),
        Some(error) => Ok(format!(in alloc; "refused at each of {count}, then: {error}")?),
        None if left == BEHIND as usize => Ok(format!(in alloc; "refused at each of {count}")?),
        None => Ok(format!(in alloc; "refused at each of {count}, then {left} left")?),
    }
}
