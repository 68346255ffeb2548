//! Keys and their parts.

use super::support::{are_alike, is_wanted, shows};
use super::values::Forms;
use sshkey_base::{Algorithm, EcdsaCurve, Result};
use sshkey_kinds::{
    EcPoint, EcdsaNistP256PublicKey, EcdsaPublicKey, Ed25519PublicKey, OpaquePublicKey,
    SkEcdsaSha2NistP256, SkEd25519,
};
use std::alloc::Global;
use std::convert::AsSlice;

/// The base point of P-256, compressed (SEC 2, section 2.4.2).
const BASE_POINT: [u8; 33] =
    *b"\x03\x6b\x17\xd1\xf2\xe1\x2c\x42\x47\xf8\xbc\xe6\xe5\x63\xa4\x40\xf2\x77\x03\x7d\x81\x2d\xeb\x33\xa0\xf4\xa1\x39\x45\xd8\x98\xc2\x96";

const UPPER_AND_LOWER: &str =
    "036B17D1F2E12C4247F8BCE6E563A440F277037D812DEB33A0F4A13945D898C296 036b17d1f2e12c4247f8bce6e563a440f277037d812deb33a0f4a13945d898c296";

/// The point as a key: its curve, its algorithm, its bytes and its forms.
fn is_a_key(alloc: Global) -> Result<bool> {
    let point: EcdsaNistP256PublicKey = EcPoint::from_bytes(&BASE_POINT)?;
    let copy = point;
    let key = EcdsaPublicKey::from_sec1_bytes(&BASE_POINT)?;
    let same = key;
    let curve = EcdsaCurve::NistP256;
    Ok(
        are_alike(&copy, &point)
            && are_alike(&same, &key)
            && point.as_slice() == key.as_slice()
            && key.algorithm() == Algorithm::Ecdsa { curve }
            && key.is_on(curve)
            && !key.is_on(EcdsaCurve::NistP384)
            && shows(alloc, &Forms(&key), UPPER_AND_LOWER),
    )
}

/// The key is equal to that of the same point and application.
fn is_same_application(alloc: Global, key: &SkEcdsaSha2NistP256) -> bool {
    match String::from_str(alloc, "ssh:") {
        Ok(application) => are_alike(key, &SkEcdsaSha2NistP256::new(*key.ec_point(), application)),
        Err(_) => false,
    }
}

/// The point for an application, and the point of that key again.
fn is_of_point(alloc: Global, point: EcdsaNistP256PublicKey) -> bool {
    match SkEcdsaSha2NistP256::with_default_application(alloc, point) {
        Ok(key) => {
            key.application() == "ssh:"
                && *key.ec_point() == point
                && is_same_application(alloc, &key)
                && EcdsaNistP256PublicKey::from(key) == point
        }
        Err(_) => false,
    }
}

fn is_for_an_application(alloc: Global) -> bool {
    match EcPoint::from_bytes(&BASE_POINT) {
        Ok(point) => is_of_point(alloc, point),
        Err(_) => false,
    }
}

#[test]
fn points(rt: HostRuntime) {
    assert!(rt; is_wanted(is_a_key(rt.alloc()), Ok(true)));
    assert!(rt; is_for_an_application(rt.alloc()));
}

/// The key is equal to that of the same bytes and application.
fn is_same_plain(alloc: Global, key: &SkEd25519) -> bool {
    match String::from_str(alloc, "ssh:") {
        Ok(application) => are_alike(key, &SkEd25519::new(*key.public_key(), application)),
        Err(_) => false,
    }
}

/// 32 bytes as a key, for an application, and the key of that again.
fn bytes_for_an_application(alloc: Global, plain: Ed25519PublicKey) -> bool {
    match SkEd25519::with_default_application(alloc, plain) {
        Ok(key) => {
            key.application() == "ssh:"
                && *key.public_key() == plain
                && is_same_plain(alloc, &key)
                && Ed25519PublicKey::from(key) == plain
        }
        Err(_) => false,
    }
}

/// The forms of 32 bytes.
fn has_forms(alloc: Global, plain: Ed25519PublicKey) -> bool {
    plain.as_slice().len() == Ed25519PublicKey::BYTE_SIZE
        && shows(
            alloc,
            &Forms(&plain),
            "ABABABABABABABABABABABABABABABABABABABABABABABABABABABABABABABAB abababababababababababababababababababababababababababababababab",
        )
}

fn opaque_key(alloc: Global) -> Result<OpaquePublicKey> {
    let bytes = Vec::from_slice(alloc, b"abc")?;
    Ok(OpaquePublicKey::new(bytes, Algorithm::SkEd25519))
}

/// The copies of an opaque key and of its bytes.
fn is_copied(alloc: Global, key: &OpaquePublicKey) -> bool {
    match key.try_clone(alloc) {
        Ok(copy) => are_alike(key, &copy) && *copy.algorithm() == Algorithm::SkEd25519,
        Err(_) => false,
    }
}

fn has_bytes(alloc: Global, key: &OpaquePublicKey) -> bool {
    match key.key.try_clone(alloc) {
        Ok(bytes) => are_alike(&key.key, &bytes) && bytes.as_slice() == b"abc".as_slice(),
        Err(_) => false,
    }
}

/// An opaque key, its copy and its parts.
fn opaque(alloc: Global) -> bool {
    match opaque_key(alloc) {
        Ok(key) => {
            key.as_slice() == b"abc".as_slice() && is_copied(alloc, &key) && has_bytes(alloc, &key)
        }
        Err(_) => false,
    }
}

#[test]
fn keys_of_bytes(rt: HostRuntime) {
    let plain = Ed25519PublicKey([0xab; 32]);
    assert!(rt; bytes_for_an_application(rt.alloc(), plain));
    assert!(rt; has_forms(rt.alloc(), plain));
    assert!(rt; opaque(rt.alloc()));
}
