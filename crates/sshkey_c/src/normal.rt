//! Normal forms.

ghost use Rattle.std.specs.Prelude.{◌≡◌, ◌≢◌};
ghost use Rattle.sshkey_calls.specs.Writing.{IsRenamedKey, WritesNormalCertificate, WritesNormalKey, WritesNormalSignature};
ghost use Rattle.sshkey_calls.specs.Signatures.{WritesNormalSshSignature};

use sshkey_calls::normal::{write_certificate, write_encoded, write_key};
use sshkey_calls::number::error_status;
use sshkey_calls::write::write_bytes;
use sshkey_cert_ref::CertificateRef;
use sshkey_keys_ref::{KeyDataRef, SignatureRef};
use sshkey_sshsig::SshSig;
use std::alloc::Global;

/// The normal form of the key that all the bytes spell, at the front of the room, and its length:
/// an RSA key has the name `ssh-rsa` there. Other keys have one spelling.
///
/// Returns 0 if they spell one, 2 where the room is too short for it, 1 if memory ran out, and else
/// from 10 to 29 their fault. With 2 the room is as it was. Memory is taken only for a key that is
/// not in its normal form.
#[unsafe(no_mangle)]
pub extern "C" fn raf_key_normal(
    alloc: Global,
    key: &[u8],
    room: &mut [u8],
    length: &mut usize,
) -> u32
    ensures normal { WritesNormalKey key.now result length.old length.new room.old room.new }
    ensures memory { result ≡ 1 → IsRenamedKey key.now }
{
    match KeyDataRef::from_bytes(key) {
        Ok(read) => write_key(alloc, &read, room, length),
        Err(error) => error_status(error),
    }
}

/// The normal form of the certificate that all the bytes spell, at the front of the room, and its
/// length: the key that signed is in its own, and an empty value of an option is an empty string.
///
/// Returns 0 if they spell one, 2 where the room is too short for it, 1 if memory ran out, and else
/// from 10 to 29 their fault. With 2 the room is as it was. Memory is taken only for a certificate.
#[unsafe(no_mangle)]
pub extern "C" fn raf_certificate_normal(
    alloc: Global,
    certificate: &[u8],
    room: &mut [u8],
    length: &mut usize,
) -> u32
    ensures { WritesNormalCertificate certificate.now
        result length.old length.new room.old room.new }
{
    match CertificateRef::from_bytes(certificate) {
        Ok(read) => write_certificate(alloc, &read, room, length),
        Err(error) => error_status(error),
    }
}

/// The normal form of the SSH signature that all the bytes spell, at the front of the room, and its
/// length: the key in it is in its own.
///
/// Returns 0 if they spell one, 2 where the room is too short for it, 1 if memory ran out, and else
/// from 10 to 29 their fault. With 2 the room is as it was. Memory is taken only for a part that
/// is whole.
#[unsafe(no_mangle)]
pub extern "C" fn raf_sshsig_normal(
    alloc: Global,
    signature: &[u8],
    room: &mut [u8],
    length: &mut usize,
) -> u32
    ensures { WritesNormalSshSignature signature.now
        result length.old length.new room.old room.new }
{
    match SshSig::from_bytes(alloc, signature) {
        Ok(read) => write_encoded(alloc, &read, room, length),
        Err(error) => error_status(error),
    }
}

/// The normal form of the signature that all the bytes spell (RFC 4253, section 6.6), at the front
/// of the room, and its length: they are it themselves.
///
/// Returns 0 if they spell one, 2 where the room is too short for it, and else from 10 to 29 their
/// fault. With 2 the room is as it was. Does not allocate.
#[unsafe(no_mangle)]
pub extern "C" fn raf_signature_normal(signature: &[u8], room: &mut [u8], length: &mut usize) -> u32
    ensures normal { WritesNormalSignature signature.now
        result length.old length.new room.old room.new }
    ensures memory { result ≢ 1 }
{
    match SignatureRef::from_bytes(signature) {
        Ok(read) => write_bytes(read.as_bytes(), room, length),
        Err(error) => error_status(error),
    }
}
