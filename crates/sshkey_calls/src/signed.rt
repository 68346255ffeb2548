//! Certificates that were signed.

ghost use Rattle.std.specs.Prelude.{◌≡◌, ◌++◌, IfOk};
ghost use Rattle.sshkey_calls.specs.Drafts.{FindsOr, FitsString, IsJoined, WritesCertificate, string_number};

use crate::draft_fields::string_of;
use crate::number::{MEMORY, error_status};
use crate::write::write_bytes;
use sshkey_cert_ref::CertificateRef;
use std::alloc::Global;

/// The bytes, and the signature in a string after them.
pub fn join(alloc: Global, to_be_signed: &[u8], signature: &[u8]) -> Result<Vec<u8>, u32>
    ensures { FindsOr (IsJoined to_be_signed.now signature.now) (λ joined. joined.items)
        (string_number signature.now) (FitsString signature.now) result }
{
    let string = string_of(alloc, signature)?;
    match append(alloc, to_be_signed, &string) {
        Ok(joined) => Ok(joined),
        Err(_) => Err(MEMORY),
    }
}

/// The first, and then the second. Fails only when out of memory.
fn append(alloc: Global, first: &[u8], second: &[u8]) -> sshkey_base::Result<Vec<u8>>
    ensures { IfOk result (λ bytes. bytes.items ≡ first.now ++ second.now) }
{
    let mut bytes = Vec::from_slice(alloc, first)?;
    bytes.extend_from_slice(second)?;
    Ok(bytes)
}

/// Writes the bytes, if they spell a certificate.
pub fn write_certificate(certificate: &[u8], room: &mut [u8], length: &mut usize) -> u32
    ensures { WritesCertificate certificate.now result length.old length.new room.old room.new }
{
    match CertificateRef::from_bytes(certificate) {
        Ok(_) => write_bytes(certificate, room, length),
        Err(error) => error_status(error),
    }
}
