//! Fingerprints and signatures, taken apart.

use super::support::{are_alike, shows};
use super::values::Forms;
use sshkey_base::{Algorithm, HashAlg, Result};
use sshkey_keys::{Fingerprint, KeyData, Signature};
use sshkey_kinds::Ed25519PublicKey;
use std::alloc::Global;
use std::convert::AsSlice;

/// The fingerprint is of that hash, with these bytes.
fn has_parts(fingerprint: &Fingerprint, hash_alg: HashAlg, prefix: &str, bytes: &[u8]) -> bool {
    fingerprint.algorithm() == hash_alg
        && fingerprint.prefix() == prefix
        && fingerprint.as_bytes() == bytes
        && fingerprint.as_slice() == bytes
}

#[test]
fn fingerprints(rt: HostRuntime) {
    let short = Fingerprint::Sha256([255; 32]);
    let long = Fingerprint::Sha512([9; 64]);
    assert!(rt; has_parts(&short, HashAlg::Sha256, "SHA256", &[255; 32]));
    assert!(rt; has_parts(&long, HashAlg::Sha512, "SHA512", &[9; 64]));
    assert!(rt; short.sha256() == Some([255; 32]) && short.sha512().is_none());
    assert!(rt; long.sha512() == Some([9; 64]) && long.sha256().is_none());
    assert!(rt; short.is_sha256() && !short.is_sha512());
    assert!(rt; long.is_sha512() && !long.is_sha256());
    // the hash is compared first
    assert!(rt; Fingerprint::Sha256([0; 32]) < short && short < long);
}

/// A signature by a private-use algorithm.
fn signature(alloc: Global) -> Result<Signature> {
    let algorithm = Algorithm::new(alloc, "name@example.com")?;
    Signature::new(algorithm, Vec::from_slice(alloc, &[0x0a, 0xf0])?)
}

/// Its copy is the same.
fn is_copied(alloc: Global, signature: &Signature) -> bool {
    match signature.try_clone(alloc) {
        Ok(copy) => {
            *signature == copy
                && signature.cmp(&copy).is_eq()
                && signature.as_slice() == copy.as_bytes()
        }
        Err(_) => false,
    }
}

/// It has that copy, and two forms.
fn is_signature(alloc: Global) -> bool {
    match signature(alloc) {
        Ok(signature) => {
            is_copied(alloc, &signature) && shows(alloc, &Forms(&signature), "0AF0 0af0")
        }
        Err(_) => false,
    }
}

/// A key and its copy.
fn is_key(alloc: Global, key: &KeyData) -> bool {
    match key.try_clone(alloc) {
        Ok(copy) => { are_alike(key, &copy) && key.ed25519() == Some(&Ed25519PublicKey([7; 32])) }
        Err(_) => false,
    }
}

#[test]
fn copies(rt: HostRuntime) {
    assert!(rt; is_signature(rt.alloc()));
    let key = KeyData::from(Ed25519PublicKey([7; 32]));
    assert!(rt; is_key(rt.alloc(), &key));
}
