//! Key pairs and their parts.

use super::pairs::read;
use super::support::{is_wanted, shows};
use super::values::Forms;
use sshkey_base::{Algorithm, EcdsaCurve, Error, Result, decode_whole, encoding};
use sshkey_doubles::Count;
use sshkey_keys::KeyData;
use sshkey_kinds::{DsaPublicKey, EcdsaPublicKey, Ed25519PublicKey, OpaquePublicKey, RsaPublicKey};
use sshkey_pair_kinds::{
    DsaKeypair, EcdsaKeypair, EcdsaPrivateKey, Ed25519Keypair, Ed25519PrivateKey, RsaKeypair,
};
use sshkey_pairs::{KeypairData, OpaqueKeypair, OpaqueKeypairBytes};
use std::alloc::Global;
use std::convert::{AsSlice, TryFrom};

/// Pairs as OpenSSH spells them (PROTOCOL.key), of small numbers and of P-384.
const DSA: &str = "000000077373682d6473730000000117000000010b000000010400000001080000000103";

const RSA: &str =
    "000000077373682d7273610000000200ff00000003010001000000011100000001070000000113000000010d";

const P384: &str =
    "0000001365636473612d736861322d6e69737470333834000000086e6973747033383400000061048396450ee56ea450a28d0d4d1fe3d7fac1d0a60dfd42597c7f14f4e001247d8f4b5e849c02339f65516d195e08f82c45f810b99ff135d1509373abae5ef32b0c54b8f7a3688fcdcb6fbb00104d6d7a3119ecabe9bc9642429d3ba0c01fc5607c000000301cccc67c2725c3b808b2ab30f1a7077002f90beba98a3ad03b927a5b343d4ccc757c03fd9be56ebe3a77915393be0632";

const DRAWN: &str =
    "000102030405060708090A0B0C0D0E0F101112131415161718191A1B1C1D1E1F 000102030405060708090a0b0c0d0e0f101112131415161718191a1b1c1d1e1f";

/// The key of the bytes that the generator gives, its forms, and what is shown of it.
fn is_drawn(alloc: Global) -> Result<bool> {
    let mut generator = Count::new();
    let key = Ed25519PrivateKey::random(&mut generator);
    let same = Ed25519PrivateKey::try_from(key.as_slice())?;
    let shown = format!(in alloc; "{key:?}")?;
    Ok(
        same == key
            && shows(alloc, &Forms(&key), DRAWN)
            && shown.as_str() == "Ed25519PrivateKey { .. }",
    )
}

/// The pair of 64 bytes, and its public key.
fn is_of_slices(bytes: &[u8; 64]) -> Result<bool> {
    let pair = Ed25519Keypair::try_from(bytes.as_slice())?;
    let same = pair == Ed25519Keypair::from_bytes(bytes);
    Ok(same && Ed25519PublicKey::from(pair) == Ed25519PublicKey([7; 32]))
}

#[test]
fn ed25519_bytes(rt: HostRuntime) {
    let short = Some(Error::Encoding(encoding::Error::Length));
    assert!(rt; is_wanted(is_drawn(rt.alloc()), Ok(true)));
    assert!(rt; is_wanted(is_of_slices(&[7; 64]), Ok(true)));
    assert!(rt; Ed25519PrivateKey::try_from([7u8; 31].as_slice()).err() == short);
    assert!(rt; Ed25519Keypair::try_from([7u8; 65].as_slice()).err() == short);
    assert!(rt; Ed25519PrivateKey::BYTE_SIZE == 32 && Ed25519Keypair::BYTE_SIZE == 64);
}

/// It is a ciphertext, and nothing else.
fn is_encrypted(pair: &KeypairData) -> bool {
    pair.is_encrypted()
        && pair.encrypted().is_some()
        && !(pair.is_dsa() || pair.is_ecdsa() || pair.is_ed25519() || pair.is_rsa())
        && !(pair.is_sk_ecdsa_p256() || pair.is_sk_ed25519() || pair.is_other())
        && pair.dsa().is_none()
        && pair.other().is_none()
}

#[test]
fn a_ciphertext_is_a_kind(rt: HostRuntime) {
    assert!(rt; is_encrypted(&KeypairData::Encrypted(Vec::new(rt.alloc()))));
}

/// The key has that algorithm.
fn is_under(alloc: Global, key: &KeyData, algorithm: &Algorithm) -> bool {
    match key.algorithm(alloc) {
        Ok(own) => own == *algorithm,
        Err(_) => false,
    }
}

fn has_algorithm(alloc: Global, pair: &KeypairData, key: &KeyData) -> bool {
    match pair.algorithm(alloc) {
        Ok(algorithm) => is_under(alloc, key, &algorithm),
        Err(_) => false,
    }
}

/// The key is the public half of the pair, and under its algorithm.
fn has_half(alloc: Global, pair: &KeypairData, key: &KeyData) -> bool {
    match pair.to_public(alloc) {
        Ok(half) => half == *key && has_algorithm(alloc, pair, key),
        Err(_) => false,
    }
}

/// A copy is the same pair, and as one of any kind the whole.
fn is_dsa(alloc: Global, pair: &DsaKeypair, whole: &KeypairData) -> bool {
    match pair.try_clone(alloc) {
        Ok(copy) => copy == *pair && KeypairData::from(copy) == *whole,
        Err(_) => false,
    }
}

/// The public key that a copy becomes is the half of the whole.
fn is_dsa_half(alloc: Global, pair: &DsaKeypair, whole: &KeypairData) -> bool {
    match pair.try_clone(alloc) {
        Ok(copy) => has_half(alloc, whole, &KeyData::from(DsaPublicKey::from(copy))),
        Err(_) => false,
    }
}

fn is_rsa(alloc: Global, pair: &RsaKeypair, whole: &KeypairData) -> bool {
    match pair.try_clone(alloc) {
        Ok(copy) => copy == *pair && KeypairData::from(copy) == *whole,
        Err(_) => false,
    }
}

fn is_rsa_half(alloc: Global, pair: &RsaKeypair, whole: &KeypairData) -> bool {
    match pair.try_clone(alloc) {
        Ok(copy) => has_half(alloc, whole, &KeyData::from(RsaPublicKey::from(copy))),
        Err(_) => false,
    }
}

/// The public key that a copy becomes.
fn half_of(pair: &EcdsaKeypair) -> Result<EcdsaPublicKey> {
    Ok(EcdsaPublicKey::from(pair.clone()?))
}

/// The public key's bytes are a point of the pair's curve.
fn is_ecdsa(pair: &EcdsaKeypair, curve: EcdsaCurve) -> bool {
    pair.algorithm() == Algorithm::Ecdsa { curve }
        && EcdsaPublicKey::from_sec1_bytes(pair.public_key_bytes()) == half_of(pair)
}

fn has_parts(alloc: Global, whole: &KeypairData) -> bool {
    match whole {
        KeypairData::Dsa(pair) => {
            pair.private.as_mpint().as_bytes() == pair.private.as_slice()
                && is_dsa(alloc, pair, whole)
                && is_dsa_half(alloc, pair, whole)
        }
        KeypairData::Rsa(pair) => is_rsa(alloc, pair, whole) && is_rsa_half(alloc, pair, whole),
        KeypairData::Ecdsa(pair) => {
            is_ecdsa(pair, pair.curve())
                && has_half(alloc, whole, &KeyData::from(pair.public_key()))
        }
        _ => false,
    }
}

fn is_made_of_parts(alloc: Global, digits: &str) -> bool {
    match read(alloc, digits) {
        Ok(pair) => has_parts(alloc, &pair),
        Err(_) => false,
    }
}

/// A pair under a private-use name.
fn opaque(alloc: Global) -> Result<OpaqueKeypair> {
    let algorithm = Algorithm::new(alloc, "name@example.com")?;
    let public = OpaquePublicKey::new(Vec::from_slice(alloc, b"ab")?, algorithm);
    Ok(OpaqueKeypair::new(Vec::from_slice(alloc, b"cde")?, public))
}

fn is_copied(alloc: Global, bytes: &OpaqueKeypairBytes) -> bool {
    match bytes.try_clone(alloc) {
        Ok(copy) => copy == *bytes,
        Err(_) => false,
    }
}

/// The two strings are the pair's bytes without its name.
fn is_nameless(alloc: Global, pair: &OpaqueKeypair) -> bool {
    let strings = b"\0\0\0\x02ab\0\0\0\x03cde".as_slice();
    match decode_whole::<OpaqueKeypairBytes, &[u8]>(alloc, strings) {
        Ok(bytes) => {
            bytes.public == pair.public.key
                && bytes.private == pair.private
                && bytes.private.as_slice() == b"cde".as_slice()
                && is_copied(alloc, &bytes)
        }
        Err(_) => false,
    }
}

fn has_public_key(alloc: Global, pair: &OpaqueKeypair) -> bool {
    match pair.try_clone(alloc) {
        Ok(copy) => OpaquePublicKey::from(copy) == pair.public,
        Err(_) => false,
    }
}

fn is_opaque(alloc: Global) -> bool {
    match opaque(alloc) {
        Ok(pair) => is_nameless(alloc, &pair) && has_public_key(alloc, &pair),
        Err(_) => false,
    }
}

/// The scalar 1, its forms and what is shown of it.
fn is_one(alloc: Global) -> Result<bool> {
    let scalar: EcdsaPrivateKey<32> = decode_whole(alloc, b"\0\0\0\x01\x01".as_slice())?;
    let shown = format!(in alloc; "{scalar:?}")?;
    let forms = Forms(&scalar).to_string(alloc)?;
    Ok(
        shown.as_str() == "EcdsaPrivateKey { .. }"
            && forms.as_str().len() == 129
            && forms.ends_with("0001")
            && AsSlice::as_slice(&scalar) == scalar.as_slice(),
    )
}

#[test]
fn parts_of_pairs(rt: HostRuntime) {
    let alloc = rt.alloc();
    assert!(rt; is_made_of_parts(alloc, DSA));
    assert!(rt; is_made_of_parts(alloc, RSA));
    assert!(rt; is_made_of_parts(alloc, P384));
    assert!(rt; is_opaque(alloc));
    assert!(rt; is_wanted(is_one(alloc), Ok(true)));
}
