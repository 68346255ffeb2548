//! Whether revocation files leave a key or a certificate unrevoked.

ghost use Rattle.std.specs.Prelude.{◌≡◌, ◌≢◌, Bool, Err, IfErr, IfOk, IsErrAnd};
ghost use Rattle.sshkey_base.specs.Judgements.{SpellsSome};
ghost use Rattle.sshkey_base.specs.Causes.{Faulty, NoMemory, cause};
ghost use Rattle.sshkey_keys.specs.Keys.{key_of};
ghost use Rattle.sshkey_krl.specs.Revocations as values;
ghost use Rattle.sshkey_model.specs.Certificates.{certificate_at, SpellsCertificate};
ghost use Rattle.sshkey_model.specs.Keys.{normal_key, SpellsKey, key_data_at};
ghost use Rattle.sshkey_model.specs.Parts.{flat};
ghost use Rattle.sshkey_model.specs.Reading.{Fault, whole};
ghost use Rattle.sshkey_calls.specs.Writing.{IsRenamedKey};
ghost use Rattle.sshkey_calls.specs.Numbers.{fault_number};
ghost use Rattle.sshkey_calls.specs.Revocations.{TellsRevoked};
ghost use Rattle.sshkey_entry_calls.specs.Revocations.{one_revokes, one_revokes_key, reads_of, IsWhether};

use crate::revocation_files::RevocationFiles;
use sshkey_base::{Error, Result, encode_vec};
use sshkey_calls::number::{DONE, REVOKED, error_status};
use sshkey_cert_ref::CertificateRef;
use sshkey_keys::KeyData;
use sshkey_keys_ref::KeyDataRef;
use sshkey_krl::Revocations;
use std::alloc::Global;

/// The number of what the files say of the key.
pub fn key_status(alloc: Global, files: &RevocationFiles<'_>, key: &[u8]) -> u32
    ensures exactly { TellsRevoked (IsWhether SpellsKey
        (λ k. values.is_key_revoked (one_revokes_key (reads_of files.now)) k) key.now) result }
    ensures fault { (met : Fault) → whole key_data_at key.now ≡ Err met
        → result ≡ fault_number met }
    ensures memory { result ≡ 1 → IsRenamedKey key.now }
{
    match is_key_revoked(alloc, files, key) {
        Ok(true) => REVOKED,
        Ok(false) => DONE,
        Err(error) => error_status(error),
    }
}

/// Whether a file revokes the key. Fails with the fault of the key, and when out of memory.
fn is_key_revoked(alloc: Global, files: &RevocationFiles<'_>, key: &[u8]) -> Result<bool>
    ensures said { IfOk result (IsWhether SpellsKey
        (λ k. values.is_key_revoked (one_revokes_key (reads_of files.now)) k) key.now) }
    ensures fault { (met : Fault) → whole key_data_at key.now ≡ Err met
        → IsErrAnd result (λ e. cause e ≡ Faulty met) }
    ensures unsaid { IfErr result (λ e. cause e ≢ NoMemory → (yes : Bool) → IsWhether SpellsKey
        (λ k. values.is_key_revoked (one_revokes_key (reads_of files.now)) k) key.now yes → ⊥) }
    ensures memory { IfErr result (λ e. cause e ≡ NoMemory → IsRenamedKey key.now) }
{
    let key = KeyDataRef::from_bytes(key)?;
    if let Some(bytes) = key.normal_bytes() {
        return Ok(files.revokes_key(bytes));
    }
    let bytes = normal_form(alloc, &key.to_key_data(alloc)?)?;
    Ok(files.revokes_key(&bytes))
}

/// The number of what the files say of the certificate.
pub fn certificate_status(alloc: Global, files: &RevocationFiles<'_>, certificate: &[u8]) -> u32
    ensures exactly { TellsRevoked (IsWhether SpellsCertificate
        (λ c. values.is_certificate_revoked (one_revokes (reads_of files.now)) c)
        certificate.now) result }
    ensures fault { (met : Fault) → whole certificate_at certificate.now ≡ Err met
        → result ≡ fault_number met }
    ensures memory { result ≡ 1 → SpellsSome SpellsCertificate certificate.now }
{
    match is_certificate_revoked(alloc, files, certificate) {
        Ok(true) => REVOKED,
        Ok(false) => DONE,
        Err(error) => error_status(error),
    }
}

/// Whether a file revokes the certificate. Fails with the fault of the certificate, and when out
/// of memory.
fn is_certificate_revoked(
    alloc: Global,
    files: &RevocationFiles<'_>,
    certificate: &[u8],
) -> Result<bool>
    ensures said { IfOk result (IsWhether SpellsCertificate
        (λ c. values.is_certificate_revoked (one_revokes (reads_of files.now)) c) certificate.now) }
    ensures fault { (met : Fault) → whole certificate_at certificate.now ≡ Err met
        → IsErrAnd result (λ e. cause e ≡ Faulty met) }
    ensures unsaid { IfErr result (λ e. cause e ≢ NoMemory → (yes : Bool)
        → IsWhether SpellsCertificate
        (λ c. values.is_certificate_revoked (one_revokes (reads_of files.now)) c)
        certificate.now yes → ⊥) }
    ensures memory { IfErr result (λ e. cause e ≡ NoMemory
        → SpellsSome SpellsCertificate certificate.now) }
{
    let read = CertificateRef::from_bytes(certificate)?;
    let key = normal_form(alloc, &read.public_key(alloc)?)?;
    let signature_key = normal_form(alloc, &read.signature_key(alloc)?)?;
    Ok(files.revokes_certificate(&key, &signature_key, read.serial(), read.key_id()))
}

/// The bytes of the key's normal form. Fails only when out of memory.
fn normal_form(alloc: Global, key: &KeyData) -> Result<Vec<u8>>
    ensures bytes { IfOk result (λ bytes. bytes.items ≡ flat (normal_key (key_of key.now))) }
    ensures memory { IfErr result (λ e. cause e ≡ NoMemory) }
{
    match encode_vec(alloc, key) {
        Ok(bytes) => Ok(bytes),
        Err(_) => Err(Error::Memory),
    }
}
