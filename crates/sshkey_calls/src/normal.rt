//! Normal forms: of the spellings that a value has, the one that is written, digested and signed.

ghost use Rattle.std.specs.Prelude.{◌≡◌};
ghost use Rattle.sshkey_base.specs.Judgements.{SpellsSome};
ghost use Rattle.sshkey_cert_ref.specs.CertificateRef.{certificate_of};
ghost use Rattle.sshkey_keys_ref.specs.KeyBytes.{IsRenamed};
ghost use Rattle.sshkey_keys_ref.specs.Keys.{key_bytes};
ghost use Rattle.sshkey_model.specs.Certificates.{normal_certificate};
ghost use Rattle.sshkey_model.specs.Keys.{Key, normal_key, SpellsKey};
ghost use Rattle.sshkey_model.specs.Parts.{flat};
ghost use Rattle.sshkey_calls.specs.Writing.{WritesContent};

use crate::number::MEMORY;
use crate::write::write_bytes;
use sshkey_base::{Encode, encode_vec};
use sshkey_cert_ref::CertificateRef;
use sshkey_keys_ref::KeyDataRef;
use std::alloc::Global;

/// Writes the normal form of a key that was read to the front of the room, and its length.
///
/// Returns 0, 2 where the room is shorter, and 1 if memory ran out, which is taken only for a key
/// that is not in its normal form.
pub fn write_key(alloc: Global, read: &KeyDataRef<'_>, room: &mut [u8], length: &mut usize) -> u32
    requires { SpellsSome SpellsKey (key_bytes read.now) }
    ensures normal { (k : Key) × SpellsKey k (key_bytes read.now) × WritesContent
        (λ content. content ≡ flat (normal_key k)) result length.old length.new room.old room.new }
    ensures memory { result ≡ 1 → IsRenamed (key_bytes read.now) }
{
    match read.normal_bytes() {
        Some(bytes) => write_bytes(bytes, room, length),
        None => match read.to_key_data(alloc) {
            Ok(key) => write_encoded(alloc, &key, room, length),
            Err(_) => MEMORY,
        },
    }
}

/// Writes the normal form of a certificate that was read to the front of the room, and its length.
///
/// Returns 0, 2 where the room is shorter, and 1 if memory ran out.
pub fn write_certificate(
    alloc: Global,
    read: &CertificateRef<'_>,
    room: &mut [u8],
    length: &mut usize,
) -> u32
    ensures { WritesContent (λ content. content
        ≡ flat (normal_certificate (certificate_of read.now)))
        result length.old length.new room.old room.new }
{
    match read.to_certificate(alloc) {
        Ok(certificate) => write_encoded(alloc, &certificate, room, length),
        Err(_) => MEMORY,
    }
}

/// Writes the normal form of the value to the front of the room, if there is room for it, and its
/// length.
///
/// Returns 0, 2 where the room is shorter, and 1 if memory ran out.
pub fn write_encoded<T: Encode>(
    alloc: Global,
    value: &T,
    room: &mut [u8],
    length: &mut usize,
) -> u32
    ensures { WritesContent (λ content. content ≡ flat (T.normal value.now))
        result length.old length.new room.old room.new }
{
    match encode_vec(alloc, value) {
        Ok(bytes) => write_bytes(&bytes, room, length),
        Err(_) => MEMORY,
    }
}
