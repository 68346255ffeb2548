//! SSH signatures of messages.

use super::support::is_wanted;
use ssh_key::public::{Ed25519PublicKey, KeyData};
use ssh_key::{Error, HashAlg, PublicKey, Result, SshSig};
use sshkey_doubles::{Fixed, OutOfMemory};
use std::alloc::Global;

const KEY: Ed25519PublicKey = Ed25519PublicKey([7; 32]);

fn made(alloc: Global) -> Result<SshSig> {
    SshSig::sign(alloc, &Fixed::new(KEY), "file", HashAlg::Sha256, b"")
}

/// The parts of what was signed.
fn has_parts(signature: &SshSig) -> bool {
    signature.version() == 1
        && signature.namespace() == "file"
        && signature.reserved().is_empty()
        && signature.hash_alg() == HashAlg::Sha256
        && *signature.public_key() == KeyData::Ed25519(KEY)
        && signature.algorithm().as_str() == "ssh-ed25519"
        && signature.signature_bytes() == [0; 64].as_slice()
        && signature.signature().as_bytes() == [0; 64].as_slice()
}

/// The error of the same parts with no namespace.
fn error_of_parts(alloc: Global, signature: &SshSig) -> Result<Option<Error>> {
    let signature = signature.signature().try_clone(alloc)?;
    let key = KeyData::Ed25519(KEY);
    Ok(SshSig::new(alloc, key, String::new(alloc), HashAlg::Sha256, signature).err())
}

/// A verifier that is out of memory has no answer.
fn is_unanswered(alloc: Global, signature: &SshSig) -> bool {
    let key = PublicKey::from_key_data(alloc, KeyData::Ed25519(KEY));
    is_wanted(
        key.verify(alloc, "file", b"", signature, &OutOfMemory),
        Err(Error::Memory),
    )
}

fn holds(alloc: Global) -> bool {
    match made(alloc) {
        Ok(signature) => {
            has_parts(&signature)
                && is_wanted(
                    error_of_parts(alloc, &signature),
                    Ok(Some(Error::Namespace)),
                )
                && is_unanswered(alloc, &signature)
        }
        Err(_) => false,
    }
}

#[test]
fn a_signature_has_its_parts(rt: HostRuntime) {
    assert!(rt; holds(rt.alloc()));
}
