//! The key that a certificate certifies.

ghost use Rattle.std.specs.Prelude.{◌≡◌, IfOk};
ghost use Rattle.sshkey_cert_ref.specs.CertificateRef.{certificate_of};
ghost use Rattle.sshkey_model.specs.Keys.{normal_key};
ghost use Rattle.sshkey_model.specs.Parts.{flat};
ghost use Rattle.sshkey_calls.specs.Writing.{WritesContent};

use crate::number::MEMORY;
use crate::write::write_bytes;
use sshkey_base::{Result, encode_vec};
use sshkey_cert_ref::CertificateRef;
use std::alloc::Global;

/// Writes the blob of the key that a certificate certifies to the front of the room, and its
/// length.
///
/// Returns 0, 2 where the room is shorter, and 1 if memory ran out.
pub fn write_key(
    alloc: Global,
    certificate: &CertificateRef<'_>,
    room: &mut [u8],
    length: &mut usize,
) -> u32
    ensures { WritesContent (λ s. s ≡ flat (normal_key (certificate_of certificate.now).signed.key))
        result length.old length.new room.old room.new }
{
    match key_of(alloc, certificate) {
        Ok(blob) => write_bytes(&blob, room, length),
        Err(_) => MEMORY,
    }
}

/// The blob of the certified key. Fails only when out of memory.
fn key_of(alloc: Global, certificate: &CertificateRef<'_>) -> Result<Vec<u8>>
    ensures { IfOk result (λ blob. blob.items
        ≡ flat (normal_key (certificate_of certificate.now).signed.key)) }
{
    let key = certificate.public_key(alloc)?;
    Ok(encode_vec(alloc, &key)?)
}
