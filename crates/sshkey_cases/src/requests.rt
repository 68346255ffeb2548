//! What clients sign for logins.

use crate::bytes::{part, text};
use crate::signatures::knower;
use openssh_limits::Padding;
use sshkey_base::{Error, Result};
use sshkey_doubles::{AcceptAll, RefuseAll};
use sshkey_keys::{Signature, SignatureQuestion};
use sshkey_userauth::{Requirements, UserauthRefusal, UserauthRequest};
use std::alloc::Global;

/// The parts of the request that all the bytes spell, each with how many bytes it has or its text,
/// and whether these bytes are written of it.
pub(crate) fn told(alloc: Global, bytes: &[u8]) -> Result<String> {
    let request = UserauthRequest::from_bytes(bytes)?;
    let (session, key) = (request.session_id.len(), request.public_key.len());
    let host_key = request.host_key.unwrap_or(&[]).len();
    let user = std::str::from_utf8(request.user)?;
    let service = std::str::from_utf8(request.service)?;
    let algorithm = std::str::from_utf8(request.algorithm)?;
    let is_same = request.to_bytes(alloc)?.as_slice() == bytes;
    let other = if is_same { "" } else { ", written otherwise" };
    Ok(format!(in alloc; "{session}, {user} for {service}, {algorithm}, {key}, {host_key}{other}")?)
}

/// Whether a verifier is asked for the request that the first byte string spells about the bytes of
/// the second and the signature that the third spells, where the fourth names what is required; or
/// why not.
pub(crate) fn asked(alloc: Global, parts: &[Vec<u8>]) -> Result<String> {
    let request = UserauthRequest::from_bytes(part(parts, 0))?;
    let signature = Signature::from_bytes(alloc, part(parts, 2))?;
    let required = Requirements {
        touch_required: text(parts, 3)? == "touch",
        verify_required: text(parts, 3)? == "verification",
    };
    said(
        alloc,
        request.question(alloc, part(parts, 1), signature, required),
    )
}

/// Whether a verifier that knows one signature, of the request that the second byte string spells,
/// accepts for it the signature that the fourth spells, as `Padding` asks it.
pub(crate) fn known(alloc: Global, parts: &[Vec<u8>]) -> Result<String> {
    let knower = knower(alloc, parts)?;
    let bytes = part(parts, 1);
    let request = UserauthRequest::from_bytes(bytes)?;
    let signature = Signature::from_bytes(alloc, part(parts, 3))?;
    let required = Requirements {
        touch_required: false,
        verify_required: false,
    };
    match request.question(alloc, bytes, signature, required) {
        Ok(question) => {
            let yes = question.is_accepted(&Padding { verifier: &knower })?;
            Ok(format!(in alloc; "{yes}")?)
        }
        Err(UserauthRefusal::Memory) => Err(Error::Memory),
        Err(refusal) => Ok(format!(in alloc; "{refusal:?}")?),
    }
}

fn said(
    alloc: Global,
    answer: std::result::Result<SignatureQuestion<'_>, UserauthRefusal>,
) -> Result<String> {
    match answer {
        Ok(question) => {
            let yes = question.is_accepted(&AcceptAll)?;
            let no = question.is_accepted(&RefuseAll)?;
            Ok(format!(in alloc; "asked, {yes} or {no}")?)
        }
        Err(UserauthRefusal::Memory) => Err(Error::Memory),
        Err(refusal) => Ok(format!(in alloc; "{refusal:?}")?),
    }
}
