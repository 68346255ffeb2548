//! Asks which deploy key has signed.

use crate::revoked::read_lists;
use crate::verified::Told;
use crate::words::{NO_LINE, bytes, text};
use ssh_key::Result;
use sshkey_examples::find_signer;
use std::alloc::{AllocError, Global};

/// Whose signature it is. The deploy keys, the content, what stands in the armour of the signature,
/// and the lists of what is revoked after it are spelled in hexadecimal digits; the namespace
/// stands before the content.
pub(crate) fn answer(alloc: Global, words: &[&str], told: &Told) -> Result<String> {
    let [keys, namespace, content, signature, revoked @ ..] = words else {
        return Err(NO_LINE);
    };
    let keys = text(alloc, keys)?;
    let content = bytes(alloc, content)?;
    let signature = bytes(alloc, signature)?;
    let revocations = read_lists(alloc, revoked)?;
    let signer = find_signer(
        alloc,
        &keys,
        namespace,
        &content,
        &signature,
        &revocations.as_slice(),
        told,
    )?;
    Ok(shown(alloc, signer)?)
}

fn shown(alloc: Global, signer: Option<String>) -> std::result::Result<String, AllocError> {
    match signer {
        Some(comment) => {
            let mut text = String::from_str(alloc, "signed by ")?;
            text.push_str(&comment)?;
            Ok(text)
        }
        None => String::from_str(alloc, "nobody"),
    }
}
