//! Which signers a builder asks, and how often.

use super::support::is_wanted;
use sshkey_base::Error;
use sshkey_base::certificate::Field;
use sshkey_cert_builder::Builder;
use sshkey_doubles::Tally;
use sshkey_keys::KeyData;
use sshkey_kinds::Ed25519PublicKey;
use std::alloc::Global;

const KEY: KeyData = KeyData::Ed25519(Ed25519PublicKey([7; 32]));

/// A builder with the nonce 01 for `KEY`.
fn builder(alloc: Global) -> Result<Builder, Error> {
    let nonce = Vec::from_slice(alloc, &[1])?;
    Builder::new(alloc, nonce, KEY, 10, 20)
}

fn fault_of_unnamed(alloc: Global, signer: &Tally) -> Result<Option<Error>, Error> {
    Ok(builder(alloc)?.sign(alloc, signer).err())
}

fn fault_for_all(alloc: Global, signer: &Tally) -> Result<Option<Error>, Error> {
    let mut builder = builder(alloc)?;
    builder.all_principals_valid()?;
    Ok(builder.sign(alloc, signer).err())
}

/// The signer is not asked where no principal was named.
fn is_unnamed(alloc: Global) -> bool {
    let signer = Tally::new(KEY);
    let refused = Error::CertificateFieldInvalid(Field::ValidPrincipals);
    is_wanted(fault_of_unnamed(alloc, &signer), Ok(Some(refused))) && signer.asked() == 0
}

/// It is asked once where all were made valid, and its error is handed on.
fn is_asked_once(alloc: Global) -> bool {
    let signer = Tally::new(KEY);
    is_wanted(fault_for_all(alloc, &signer), Ok(Some(Error::Crypto))) && signer.asked() == 1
}

#[test]
fn a_builder_is_told_whom(rt: HostRuntime) {
    assert!(rt; is_unnamed(rt.alloc()));
    assert!(rt; is_asked_once(rt.alloc()));
}
