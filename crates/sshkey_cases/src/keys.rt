//! Whole public keys, and their fingerprints.

use crate::bytes::{NO_LINE, part, text};
use sshkey_base::{Algorithm, HashAlg, Mpint, Result, decode_whole};
use sshkey_keys::{Fingerprint, KeyData};
use sshkey_kinds::{
    DsaPublicKey, EcPoint, EcdsaPublicKey, Ed25519PublicKey, OpaquePublicKey, RsaPublicKey,
    SkEcdsaSha2NistP256, SkEd25519,
};
use std::alloc::Global;

/// The name and the kind of the key that all the bytes spell, and how many bytes follow the name
/// where it is written, of a copy of the key.
pub(crate) fn name_and_kind(alloc: Global, bytes: &[u8]) -> Result<String> {
    said(alloc, &copied(alloc, bytes)?)
}

/// A copy of the key that all the bytes spell. It has a function of its own, since the ways out of
/// one that lets go of two keys are as many as the pairs of their kinds.
fn copied(alloc: Global, bytes: &[u8]) -> Result<KeyData> {
    let read: KeyData = decode_whole(alloc, bytes)?;
    Ok(read.try_clone(alloc)?)
}

fn said(alloc: Global, key: &KeyData) -> Result<String> {
    let name = key.algorithm_name();
    let len = key.encoded_key_data_len()?;
    Ok(format!(in alloc; "{name}, {}, {len} bytes", kind_of(key))?)
}

/// The kind that the key is said to be, and that it is seen as.
fn kind_of(key: &KeyData) -> &'static str {
    if key.is_dsa() && key.dsa().is_some() {
        "DSA"
    } else if key.is_ecdsa() && key.ecdsa().is_some() {
        "ECDSA"
    } else if key.is_ed25519() && key.ed25519().is_some() {
        "Ed25519"
    } else if key.is_rsa() && key.rsa().is_some() {
        "RSA"
    } else if key.is_sk_ecdsa_p256() && key.sk_ecdsa_p256().is_some() {
        "ECDSA by a security key"
    } else if key.is_sk_ed25519() && key.sk_ed25519().is_some() {
        "Ed25519 by a security key"
    } else if key.is_other() && key.other().is_some() {
        "opaque"
    } else {
        "no kind"
    }
}

/// The fingerprints of the key that all the bytes spell.
pub(crate) fn fingerprints(alloc: Global, bytes: &[u8]) -> Result<String> {
    let key: KeyData = decode_whole(alloc, bytes)?;
    both_fingerprints(alloc, &key)
}

fn both_fingerprints(alloc: Global, key: &KeyData) -> Result<String> {
    let short = Fingerprint::new(alloc, HashAlg::Sha256, key)?;
    let long = key.fingerprint(alloc, HashAlg::Sha512)?;
    Ok(format!(in alloc; "{short} {long}")?)
}

/// The random art of the fingerprint with that text under a header, with `; ` between the lines.
pub(crate) fn art(alloc: Global, parts: &[Vec<u8>]) -> Result<String> {
    let fingerprint: Fingerprint = text(parts, 0)?.parse()?;
    let art = fingerprint.to_randomart(alloc, text(parts, 1)?)?;
    Ok(art.replace(alloc, '\n', "; ")?)
}

/// The fingerprint of the key whose algorithm the first byte string names, and whose body the
/// second one begins with.
pub(crate) fn named(alloc: Global, parts: &[Vec<u8>]) -> Result<String> {
    let algorithm = Algorithm::new(alloc, text(parts, 0)?)?;
    let key = KeyData::decode_as(alloc, &mut part(parts, 1), algorithm)?;
    fingerprint(alloc, &key)
}

fn fingerprint(alloc: Global, key: &KeyData) -> Result<String> {
    Ok(key.fingerprint(alloc, HashAlg::Sha256)?.to_string(alloc)?)
}

/// The fingerprint of the key that is made of its parts: the first byte string names its kind.
pub(crate) fn made(alloc: Global, parts: &[Vec<u8>]) -> Result<String> {
    let number = |place: usize| Mpint::from_positive_bytes(alloc, part(parts, place));
    let key = match text(parts, 0)? {
        "dsa" => KeyData::from(DsaPublicKey {
            p: number(1)?,
            q: number(2)?,
            g: number(3)?,
            y: number(4)?,
        }),
        "rsa" => KeyData::from(RsaPublicKey {
            e: number(1)?,
            n: number(2)?,
        }),
        _ => made_of_bytes(alloc, parts)?,
    };
    fingerprint(alloc, &key)
}

/// The key that is made of a point or of bytes.
fn made_of_bytes(alloc: Global, parts: &[Vec<u8>]) -> Result<KeyData> {
    let bytes = part(parts, 1);
    Ok(match text(parts, 0)? {
        "ecdsa" => KeyData::from(EcdsaPublicKey::from_sec1_bytes(bytes)?),
        "ed25519" => KeyData::from(Ed25519PublicKey::try_from(bytes)?),
        "sk-ecdsa" => {
            let point = EcPoint::from_bytes(bytes)?;
            KeyData::from(SkEcdsaSha2NistP256::with_default_application(alloc, point)?)
        }
        "sk-ed25519" => {
            let key = Ed25519PublicKey::try_from(bytes)?;
            KeyData::from(SkEd25519::new(key, String::from_str(alloc, text(parts, 2)?)?))
        }
        "opaque" => {
            let algorithm = Algorithm::new(alloc, text(parts, 2)?)?;
            KeyData::from(OpaquePublicKey::new(bytes.to_vec(alloc)?, algorithm))
        }
        _ => return Err(NO_LINE),
    })
}
