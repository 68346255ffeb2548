//! Certificates that are to be signed.

ghost use Rattle.std.specs.Prelude.{◌≡◌, ◌≢◌};
ghost use Rattle.sshkey_model.specs.Certificates.{normal_to_be_signed};
ghost use Rattle.sshkey_model.specs.Parts.{Fits, flat};
ghost use Rattle.sshkey_cert_values.specs.CertificateFields.{to_be_signed_of};
ghost use Rattle.sshkey_calls.specs.Writing.{WritesContent};

use crate::number::error_status;
use crate::write::write_bytes;
use sshkey_cert_values::CertificateFields;
use std::alloc::Global;

/// What a certificate is to say.
#[repr(C)]
#[derive(Clone, Copy, Debug)]
pub struct CertificateDraft<'a> {
    /// The blob of the key that is certified.
    pub key: &'a [u8],
    /// Random bytes: PROTOCOL.certkeys wants 16 or 32.
    pub nonce: &'a [u8],
    /// The key id, a text for logs.
    pub key_id: &'a [u8],
    /// The principals, each a string, one after the other.
    pub principals: &'a [u8],
    /// The critical options, one after the other, by rising names: the string of a name, and a
    /// string that is empty or holds the string of a value.
    pub critical_options: &'a [u8],
    /// The extensions, likewise.
    pub extensions: &'a [u8],
    /// The blob of the key that is to sign.
    pub authority: &'a [u8],
    /// A number of the signer's choice.
    pub serial: u64,
    /// The first second of its window, since 1970.
    pub valid_after: u64,
    /// The first second after its window, or 2^64 - 1 for no end.
    pub valid_before: u64,
    /// 1 for users, 2 for hosts.
    pub certificate_type: u32,
    /// 1 where it lists no principals, and so allows everybody.
    pub all_principals: u32,
}

/// Writes the bytes that are to be signed of these fields to the front of the room, and their
/// length.
///
/// Returns 0, 2 where the room is shorter, 1 if memory ran out, and 13 where a field does not fit a
/// string.
pub fn write_fields(
    alloc: Global,
    fields: &CertificateFields,
    room: &mut [u8],
    length: &mut usize,
) -> u32
    ensures written { WritesContent (λ s. Fits (normal_to_be_signed (to_be_signed_of fields.now))
        × (s ≡ flat (normal_to_be_signed (to_be_signed_of fields.now))))
        result length.old length.new room.old room.new }
    ensures long { result ≢ 0 → result ≢ 1 → result ≢ 2 → result ≡ 13 }
{
    match fields.signed_bytes(alloc) {
        Ok(bytes) => write_bytes(&bytes, room, length),
        Err(error) => error_status(error),
    }
}
