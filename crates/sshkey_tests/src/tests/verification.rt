//! A signer whose own verifier accepts what it signs, and a verifier that has no answer.

use super::support::is_wanted;
use sshkey_base::{Algorithm, Error};
use sshkey_doubles::{Fixed, OutOfMemory, RefuseAll};
use sshkey_keys::{KeyData, Signature, SigningKey};
use sshkey_keys_ref::{KeyDataRef, SignatureRef};
use sshkey_kinds::Ed25519PublicKey;
use std::alloc::Global;

/// An Ed25519 key that ssh-keygen made.
const KEY: Ed25519PublicKey = Ed25519PublicKey(
    *b"\xb3\x3e\xae\xf3\x7e\xa2\xdf\x7c\xaa\x01\x0d\xef\xde\xa3\x4e\x24\x1f\x65\xf1\xb5\x29\xa4\xf4\x3e\xd1\x43\x27\xf5\xc5\x4a\xab\x62",
);

/// The signature is 64 bytes 00 by Ed25519, which the signer's own verifier alone accepts. One that
/// is out of memory has no answer.
fn is_of_signer(alloc: Global, signer: &Fixed, message: &[u8], signature: &Signature) -> bool {
    let key = signer.public_key();
    *key == KeyData::Ed25519(KEY)
        && *signature.algorithm() == Algorithm::Ed25519
        && signature.as_bytes() == [0; 64].as_slice()
        && is_wanted(key.verify(alloc, message, signature, signer.raw()), Ok(()))
        && is_wanted(
            key.verify(alloc, message, signature, &RefuseAll),
            Err(Error::Crypto),
        )
        && is_wanted(
            key.verify(alloc, message, signature, &OutOfMemory),
            Err(Error::Memory),
        )
}

/// What `Fixed` signs is such a signature.
fn fixed_is_verified(alloc: Global, message: &[u8]) -> bool {
    let signer = Fixed::new(KEY);
    match signer.try_sign(alloc, message) {
        Ok(signature) => is_of_signer(alloc, &signer, message, &signature),
        Err(_) => false,
    }
}

#[test]
fn a_fixed_signature_is_verified(rt: HostRuntime) {
    assert!(rt; fixed_is_verified(rt.alloc(), b""));
    assert!(rt; fixed_is_verified(rt.alloc(), b"message"));
}

/// The key and the signature as slices.
fn has_no_answer(alloc: Global) -> Option<bool> {
    let key = KeyDataRef::from_bytes(b"\0\0\0\x07ssh-rsa\0\0\0\x01\x03\0\0\0\x01\x21").ok()?;
    let signature = SignatureRef::from_bytes(b"\0\0\0\x0crsa-sha2-256\0\0\0\x01\x09").ok()?;
    Some(
        key.accepts(alloc, b"message", &signature, &OutOfMemory)
            .is_err(),
    )
}

#[test]
fn slices_have_no_answer_without_memory(rt: HostRuntime) {
    assert!(rt; has_no_answer(rt.alloc()) == Some(true));
}
