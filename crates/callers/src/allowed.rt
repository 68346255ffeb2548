//! Asks whether a signature is an identity's.

use crate::revoked::read_lists;
use crate::verified::Told;
use crate::words::{NO_LINE, bytes, number, text};
use allowed_signers::{SignerRefusal, verify};
use ssh_key::Result;
use std::alloc::{AllocError, Global};

/// Whether the signature is the identity's of the message before it, by the text of allowed signers
/// and the lists of revoked keys after it, all in hexadecimal digits.
pub(crate) fn answer(alloc: Global, words: &[&str], told: &Told) -> Result<String> {
    let [
        signers,
        identity,
        namespace,
        seconds,
        message,
        signature,
        revoked @ ..,
    ] = words
    else {
        return Err(NO_LINE);
    };
    let signers = bytes(alloc, signers)?;
    let message = bytes(alloc, message)?;
    let signature = bytes(alloc, signature)?;
    let answer = verify(
        alloc,
        &signers,
        identity,
        namespace,
        &message,
        &signature,
        number(seconds)?,
        &read_lists(alloc, revoked)?.as_slice(),
        told,
    );
    shown(alloc, answer)
}

fn shown(alloc: Global, answer: std::result::Result<(), SignerRefusal>) -> Result<String> {
    let text = match answer {
        Ok(()) => "ok",
        Err(SignerRefusal::NoSignature) => "no signature",
        Err(SignerRefusal::NoIdentity) => "no identity",
        Err(SignerRefusal::NotAllowed) => "not allowed",
        Err(SignerRefusal::Revoked) => "revoked",
        Err(SignerRefusal::NotVerified) => "not verified",
        Err(SignerRefusal::Memory) => return Err(ssh_key::Error::Memory),
    };
    Ok(String::from_str(alloc, text)?)
}
