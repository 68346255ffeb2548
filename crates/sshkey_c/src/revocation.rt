//! Whether revocation files, or a key revocation list, leave a key or a certificate unrevoked.

ghost use Rattle.std.specs.Prelude.{◌≡◌, ◌⊎◌, Err};
ghost use Rattle.sshkey_base.specs.Judgements.{SpellsSome};
ghost use Rattle.sshkey_model.specs.Keys.{key_data_at};
ghost use Rattle.sshkey_krl.specs.Krls.{SpellsKrl, krl_format};
ghost use Rattle.sshkey_model.specs.Certificates.{certificate_at, SpellsCertificate};
ghost use Rattle.sshkey_model.specs.Reading.{Fault, whole};
ghost use Rattle.sshkey_calls.specs.Writing.{IsRenamedKey};
ghost use Rattle.sshkey_calls.specs.Numbers.{fault_number};
ghost use Rattle.sshkey_calls.specs.Revocations.{IsWhetherCertificateRevoked, IsWhetherKeyRevoked, TellsRevoked};
ghost use Rattle.sshkey_entry_calls.specs.Revocations.{NeedsFiles, TellsRevokedCertificate, TellsRevokedKey};

use sshkey_calls::number::{DONE, MEMORY, REVOKED, UNREADABLE_REVOCATIONS, error_status};
use sshkey_calls::revocation::{is_certificate_revoked, is_key_revoked};
use sshkey_entry_calls::RevocationFiles;
use sshkey_entry_calls::revocations::{certificate_status, key_status};
use std::alloc::Global;

/// Whether none of the revocation files (`RevocationFiles`) revokes the key that all its bytes
/// spell.
///
/// Returns 0 if none does, 56 if one does, 58 if a file cannot be read or there is none, which
/// revokes everything, from 10 to 29 the fault of bytes that are no key, and 1 if memory ran out.
/// So 0 alone says that the key is not revoked. Of one list, memory is taken only for an RSA key
/// under another name than `ssh-rsa`.
#[unsafe(no_mangle)]
pub extern "C" fn raf_check_unrevoked_key(alloc: Global, revoked: &[&[u8]], key: &[u8]) -> u32
    ensures answer { TellsRevokedKey revoked.now key.now result }
    ensures memory { result ≡ 1 → NeedsFiles revoked.now ⊎ IsRenamedKey key.now }
{
    let Ok(files) = RevocationFiles::read(alloc, revoked) else {
        return MEMORY;
    };
    if !files.are_read() {
        return UNREADABLE_REVOCATIONS;
    }
    key_status(alloc, &files, key)
}

/// Whether none of the revocation files revokes the certificate that all its bytes spell.
///
/// Returns what `raf_check_unrevoked_key` does, with the fault of bytes that are no certificate. Of
/// one list, memory is taken only for bytes that are one.
#[unsafe(no_mangle)]
pub extern "C" fn raf_check_unrevoked_certificate(
    alloc: Global,
    revoked: &[&[u8]],
    certificate: &[u8],
) -> u32
    ensures answer { TellsRevokedCertificate revoked.now certificate.now result }
    ensures memory { result ≡ 1 → NeedsFiles revoked.now
        ⊎ SpellsSome SpellsCertificate certificate.now }
{
    let Ok(files) = RevocationFiles::read(alloc, revoked) else {
        return MEMORY;
    };
    if !files.are_read() {
        return UNREADABLE_REVOCATIONS;
    }
    certificate_status(alloc, &files, certificate)
}

/// Whether the key revocation list that all the bytes spell (PROTOCOL.krl) has neither the key that
/// all its bytes spell nor a digest of it.
///
/// Returns 0 if it has not, 56 if it has, from 10 to 29 the fault of bytes that are no list, or
/// else of bytes that are no key, and 1 if memory ran out. So 0 alone says that the key is not
/// revoked. Memory is taken only for an RSA key under another name than `ssh-rsa`.
#[unsafe(no_mangle)]
pub extern "C" fn raf_check_unrevoked_key_by_krl(alloc: Global, krl: &[u8], key: &[u8]) -> u32
    ensures exactly { TellsRevoked (IsWhetherKeyRevoked krl.now key.now) result }
    ensures list { (fault : Fault) → whole krl_format.read krl.now ≡ Err fault
        → result ≡ fault_number fault }
    ensures key { SpellsSome SpellsKrl krl.now → (fault : Fault)
        → whole key_data_at key.now ≡ Err fault → result ≡ fault_number fault }
    ensures memory { result ≡ 1 → SpellsSome SpellsKrl krl.now × IsRenamedKey key.now }
{
    match is_key_revoked(alloc, krl, key) {
        Ok(true) => REVOKED,
        Ok(false) => DONE,
        Err(error) => error_status(error),
    }
}

/// Whether the key revocation list that all the bytes spell (PROTOCOL.krl) leaves the certificate
/// that all its bytes spell unrevoked. It revokes one by its key, by the key that signed it, or by
/// its serial number or its key id among the certificates of that key or of every key.
///
/// Returns what `raf_check_unrevoked_key_by_krl` does, with the fault of bytes that are no
/// certificate. Memory is taken only where both are spelled.
#[unsafe(no_mangle)]
pub extern "C" fn raf_check_unrevoked_certificate_by_krl(
    alloc: Global,
    krl: &[u8],
    certificate: &[u8],
) -> u32
    ensures exactly { TellsRevoked (IsWhetherCertificateRevoked krl.now certificate.now) result }
    ensures list { (fault : Fault) → whole krl_format.read krl.now ≡ Err fault
        → result ≡ fault_number fault }
    ensures certificate { SpellsSome SpellsKrl krl.now → (fault : Fault)
        → whole certificate_at certificate.now ≡ Err fault → result ≡ fault_number fault }
    ensures memory { result ≡ 1 → SpellsSome SpellsKrl krl.now
        × SpellsSome SpellsCertificate certificate.now }
{
    match is_certificate_revoked(alloc, krl, certificate) {
        Ok(true) => REVOKED,
        Ok(false) => DONE,
        Err(error) => error_status(error),
    }
}
