//! Reads the messages of an agent, and writes them again.

use crate::words::{NO_LINE, bytes};
use agent::{Identity, Request, Response};
use ssh_key::encoding::{Bytes, decode_whole, encode_vec, erase_slice};
use ssh_key::{Result, Signature};
use std::alloc::{AllocError, Global};

/// Which request the bytes are, and what is written of it. Neither stays in memory.
pub(crate) fn request(alloc: Global, words: &[&str]) -> Result<String> {
    let [digits] = words else {
        return Err(NO_LINE);
    };
    let mut message = bytes(alloc, digits)?;
    let text = shown_request(alloc, &message);
    erase_slice(&mut message);
    text
}

fn shown_request(alloc: Global, message: &[u8]) -> Result<String> {
    let request = decode_whole::<Request, &[u8]>(alloc, message)?;
    let mut text = String::from_str(alloc, name(&request))?;
    let mut written = encode_vec(alloc, &request)?;
    push_bytes(alloc, &mut text, &written)?;
    erase_slice(&mut written);
    Ok(text)
}

fn name(request: &Request) -> &'static str {
    match request {
        Request::RequestIdentities => "request-identities",
        Request::SignRequest(_) => "sign-request",
        Request::AddIdentity(_) => "add-identity",
        Request::RemoveIdentity(_) => "remove-identity",
        Request::RemoveAllIdentities => "remove-all-identities",
        Request::Lock(_) => "lock",
        Request::Unlock(_) => "unlock",
        Request::AddIdentityConstrained {
            addition: _,
            constraints: _,
        } => "add-identity-constrained",
    }
}

/// Which response the bytes are, what it holds, and what is written of it.
pub(crate) fn response(alloc: Global, words: &[&str]) -> Result<String> {
    let [digits] = words else {
        return Err(NO_LINE);
    };
    let message = bytes(alloc, digits)?;
    let response = decode_whole::<Response, &[u8]>(alloc, message.as_slice())?;
    let mut text = shown(alloc, &response)?;
    push_bytes(alloc, &mut text, &encode_vec(alloc, &response)?)?;
    Ok(text)
}

fn shown(alloc: Global, response: &Response) -> Result<String> {
    match response {
        Response::Failure => Ok(String::from_str(alloc, "failure")?),
        Response::Success => Ok(String::from_str(alloc, "success")?),
        Response::IdentitiesAnswer(identities) => shown_identities(alloc, identities),
        Response::SignResponse(signature) => shown_signature(alloc, signature),
        Response::ExtensionFailure => Ok(String::from_str(alloc, "extension-failure")?),
        Response::ExtensionResponse { name, contents } => shown_extension(alloc, name, contents),
    }
}

/// The name of the extension, and each string of its answer.
fn shown_extension(alloc: Global, name: &Bytes, contents: &[Bytes]) -> Result<String> {
    let mut text = String::from_str(alloc, "extension")?;
    push_bytes(alloc, &mut text, name.as_slice())?;
    for part in contents {
        push_bytes(alloc, &mut text, part.as_slice())?;
    }
    Ok(text)
}

/// The blob and the comment of each key.
fn shown_identities(alloc: Global, identities: &[Identity]) -> Result<String> {
    let mut text = String::from_str(alloc, "identities")?;
    for identity in identities {
        push_bytes(alloc, &mut text, identity.key.as_slice())?;
        push_bytes(alloc, &mut text, identity.comment.as_slice())?;
    }
    Ok(text)
}

/// The algorithm of the signature, and its bytes.
pub(crate) fn shown_signature(alloc: Global, signature: &Signature) -> Result<String> {
    let mut text = String::from_str(alloc, "signature ")?;
    text.push_str(signature.algorithm().as_str())?;
    push_bytes(alloc, &mut text, signature.as_bytes())?;
    Ok(text)
}

/// A space and the bytes in hexadecimal digits, or a dash for none.
fn push_bytes(
    alloc: Global,
    text: &mut String,
    bytes: &[u8],
) -> std::result::Result<(), AllocError> {
    text.push(' ')?;
    if bytes.is_empty() {
        return text.push('-');
    }
    text.push_str(&hex::encode(alloc, bytes)?)
}
