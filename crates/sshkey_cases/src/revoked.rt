//! Revocation files.

use crate::bytes::part;
use crate::krl::word;
use sshkey_base::Result;
use sshkey_krl::Revocations;
use sshkey_revoked_keys::RevokedKeys;
use std::alloc::Global;

/// What the file that the first byte string is says of the key that the second one is; and of a
/// certificate of that key which the third one signed.
pub(crate) fn said(alloc: Global, parts: &[Vec<u8>]) -> Result<String> {
    let file = RevokedKeys::from_bytes(alloc, part(parts, 0))?;
    let (key, signer) = (part(parts, 1), part(parts, 2));
    let of_key = word(file.revokes_key(key));
    let of_certificate = word(file.revokes_certificate(key, signer, 0, ""));
    Ok(format!(in alloc; "{of_key} {of_certificate}")?)
}
