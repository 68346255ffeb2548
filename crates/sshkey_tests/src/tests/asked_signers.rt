//! Which signers are asked for an SSH signature, and how often.

use super::support::is_wanted;
use ssh_key::public::{
    EcPoint, EcdsaNistP256PublicKey, Ed25519PublicKey, KeyData, SkEcdsaSha2NistP256, SkEd25519,
};
use ssh_key::{Algorithm, Error, HashAlg, Result, SshSig};
use sshkey_doubles::Tally;
use std::alloc::Global;

/// The base point of P-256 (SEC 2, section 2.4.2).
const BASE_POINT: [u8; 33] =
    *b"\x03\x6b\x17\xd1\xf2\xe1\x2c\x42\x47\xf8\xbc\xe6\xe5\x63\xa4\x40\xf2\x77\x03\x7d\x81\x2d\xeb\x33\xa0\xf4\xa1\x39\x45\xd8\x98\xc2\x96";

const POINT: [u8; 32] = [7; 32];

/// The answer for a signer with that key, which was asked so often.
fn is_answer(alloc: Global, key: KeyData, namespace: &str, error: &Error, times: u32) -> bool {
    let signer = Tally::new(key);
    match SshSig::sign(alloc, &signer, namespace, HashAlg::Sha256, b"message") {
        Ok(_) => false,
        Err(answer) => answer == *error && signer.asked() == times,
    }
}

/// It is asked once in a namespace, and never without one.
fn is_asked_once(alloc: Global) -> bool {
    let key = || KeyData::Ed25519(Ed25519PublicKey(POINT));
    is_answer(alloc, key(), "file", &Error::Crypto, 1)
        && is_answer(alloc, key(), "", &Error::Namespace, 0)
}

fn ed25519_is_not_asked(alloc: Global) -> Result<bool> {
    let key = SkEd25519::with_default_application(alloc, Ed25519PublicKey(POINT))?;
    let error = Error::AlgorithmUnsupported {
        algorithm: Algorithm::SkEd25519,
    };
    Ok(is_answer(alloc, KeyData::SkEd25519(key), "file", &error, 0))
}

fn ecdsa_is_not_asked(alloc: Global) -> Result<bool> {
    let point: EcdsaNistP256PublicKey = EcPoint::from_bytes(&BASE_POINT)?;
    let key = SkEcdsaSha2NistP256::with_default_application(alloc, point)?;
    let error = Error::AlgorithmUnsupported {
        algorithm: Algorithm::SkEcdsaSha2NistP256,
    };
    Ok(is_answer(alloc, KeyData::SkEcdsaSha2NistP256(key), "file", &error, 0))
}

#[test]
fn a_security_key_is_never_asked(rt: HostRuntime) {
    assert!(rt; is_asked_once(rt.alloc()));
    assert!(rt; is_wanted(ed25519_is_not_asked(rt.alloc()), Ok(true)));
    assert!(rt; is_wanted(ecdsa_is_not_asked(rt.alloc()), Ok(true)));
}
