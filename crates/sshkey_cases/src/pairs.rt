//! Key pairs.

use crate::bytes::{part, text};
use crate::wire::debugged;
use sshkey_base::{Algorithm, Result, decode_whole, encode_vec};
use sshkey_kinds::EcdsaPublicKey;
use sshkey_pair_kinds::{EcdsaKeypair, EcdsaPrivateKey};
use sshkey_pairs::KeypairData;
use std::alloc::Global;

/// The algorithm and the bytes of the pair whose algorithm the first byte string names, and whose
/// parts the second one begins with.
pub(crate) fn named(alloc: Global, parts: &[Vec<u8>]) -> Result<String> {
    let algorithm = Algorithm::new(alloc, text(parts, 0)?)?;
    let pair = KeypairData::decode_as(alloc, &mut part(parts, 1), algorithm)?;
    algorithm_and_bytes(alloc, &pair)
}

fn algorithm_and_bytes(alloc: Global, pair: &KeypairData) -> Result<String> {
    let algorithm = pair.algorithm(alloc)?;
    let digits = hex::encode(alloc, &encode_vec(alloc, pair)?)?;
    Ok(format!(in alloc; "{algorithm}, {digits}")?)
}

/// The algorithm and the bytes of the pair of ECDSA that a point and a scalar make.
pub(crate) fn made(alloc: Global, parts: &[Vec<u8>]) -> Result<String> {
    let public = EcdsaPublicKey::from_sec1_bytes(part(parts, 0))?;
    let pair = EcdsaKeypair::new(public, part(parts, 1))?;
    algorithm_and_bytes(alloc, &KeypairData::from(pair))
}

/// The bytes of a scalar of 32 bytes.
pub(crate) fn made_scalar(alloc: Global, bytes: &[u8]) -> Result<String> {
    let bytes: [u8; 32] = bytes.try_into()?;
    let scalar = EcdsaPrivateKey::from_bytes(&bytes);
    Ok(hex::encode(alloc, &encode_vec(alloc, &scalar)?)?)
}

/// What `{:?}` shows of the pair that all the bytes spell.
pub(crate) fn shown(alloc: Global, bytes: &[u8]) -> Result<String> {
    let pair: KeypairData = decode_whole(alloc, bytes)?;
    debugged(alloc, &pair)
}

/// Which kinds the pair that all the bytes spell says it is, and which of them it gives; its
/// algorithm, and what is written of its public half.
pub(crate) fn told(alloc: Global, bytes: &[u8]) -> Result<String> {
    let pair: KeypairData = decode_whole(alloc, bytes)?;
    let kinds = kinds_of(alloc, &pair)?;
    let algorithm = pair.algorithm(alloc)?;
    let half = half_of(alloc, &pair)?;
    Ok(format!(in alloc; "{kinds} {algorithm}, {half}")?)
}

fn half_of(alloc: Global, pair: &KeypairData) -> Result<String> {
    let written = encode_vec(alloc, &pair.to_public(alloc)?)?;
    Ok(hex::encode(alloc, &written)?)
}

fn kinds_of(alloc: Global, pair: &KeypairData) -> Result<String> {
    let kinds = [
        ("DSA", pair.is_dsa(), pair.dsa().is_some()),
        ("ECDSA", pair.is_ecdsa(), pair.ecdsa().is_some()),
        ("Ed25519", pair.is_ed25519(), pair.ed25519().is_some()),
        (
            "ciphertext",
            pair.is_encrypted(),
            pair.encrypted().is_some(),
        ),
        ("RSA", pair.is_rsa(), pair.rsa().is_some()),
        (
            "ECDSA by a security key",
            pair.is_sk_ecdsa_p256(),
            pair.sk_ecdsa_p256().is_some(),
        ),
        (
            "Ed25519 by a security key",
            pair.is_sk_ed25519(),
            pair.sk_ed25519().is_some(),
        ),
        ("opaque", pair.is_other(), pair.other().is_some()),
    ];
    let mut shown = String::new(alloc);
    for (name, is, gives) in kinds {
        if is {
            shown.push_str(name)?;
        }
        if gives {
            shown.push_str(", given,")?;
        }
    }
    Ok(shown)
}
