//! Names of algorithms, and digests.

use crate::bytes::{part, text};
use sshkey_base::{Algorithm, HashAlg, Result};
use std::alloc::Global;

/// The kind that the algorithm of that name is said to be, and its name in certificates.
pub(crate) fn algorithm(alloc: Global, name: &str) -> Result<String> {
    let algorithm = Algorithm::new(alloc, name)?;
    let certified = algorithm.to_certificate_type(alloc)?;
    Ok(format!(in alloc; "{}, {certified}", kind_of(&algorithm))?)
}

fn kind_of(algorithm: &Algorithm) -> &'static str {
    if algorithm.is_dsa() {
        "DSA"
    } else if algorithm.is_ecdsa() {
        "ECDSA"
    } else if algorithm.is_ed25519() {
        "Ed25519"
    } else if algorithm.is_rsa() {
        "RSA"
    } else {
        "no plain kind"
    }
}

/// The algorithm whose name in certificates is this string, and whether that is written again.
pub(crate) fn certified(alloc: Global, bytes: &[u8]) -> Result<String> {
    let algorithm = Algorithm::decode_certificate(alloc, &mut &*bytes)?;
    let mut written = Vec::new(alloc);
    algorithm.encode_certificate_name(&mut written)?;
    let other = if written.as_slice() == bytes {
        ""
    } else {
        ", written otherwise"
    };
    Ok(format!(in alloc; "{algorithm}{other}")?)
}

/// The digest of the second byte string by the hash that the first one names, and its size.
pub(crate) fn digest(alloc: Global, parts: &[Vec<u8>]) -> Result<String> {
    let hash = HashAlg::new(text(parts, 0)?)?;
    let digits = hex::encode(alloc, hash.digest(alloc, part(parts, 1))?)?;
    Ok(format!(in alloc; "{digits}, {} bytes", hash.digest_size())?)
}
