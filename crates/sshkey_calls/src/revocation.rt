//! Whether a key revocation list leaves a key or a certificate unrevoked.

ghost use Rattle.std.specs.Prelude.{◌≡◌, ◌≢◌, Bool, Err, IfErr, IfOk, IsErrAnd};
ghost use Rattle.sshkey_base.specs.Judgements.{SpellsSome};
ghost use Rattle.sshkey_base.specs.Causes.{Faulty, NoMemory, cause};
ghost use Rattle.sshkey_keys.specs.Keys.{key_of};
ghost use Rattle.sshkey_krl.specs.Krls.{SpellsKrl, krl_format};
ghost use Rattle.sshkey_model.specs.Certificates.{certificate_at, SpellsCertificate};
ghost use Rattle.sshkey_model.specs.Keys.{normal_key, key_data_at};
ghost use Rattle.sshkey_model.specs.Parts.{flat};
ghost use Rattle.sshkey_model.specs.Reading.{Fault, whole};
ghost use Rattle.sshkey_calls.specs.Writing.{IsRenamedKey};
ghost use Rattle.sshkey_calls.specs.Revocations.{IsWhetherCertificateRevoked, IsWhetherKeyRevoked};

use sshkey_base::{Error, Result, encode_vec};
use sshkey_cert_ref::CertificateRef;
use sshkey_keys::KeyData;
use sshkey_keys_ref::KeyDataRef;
use sshkey_krl::KrlRef;
use std::alloc::Global;

/// Whether the list has the key. Fails with the first fault of the list, or else of the key, and
/// when out of memory.
pub fn is_key_revoked(alloc: Global, krl: &[u8], key: &[u8]) -> Result<bool>
    ensures said { IfOk result (IsWhetherKeyRevoked krl.now key.now) }
    ensures list { (fault : Fault) → whole krl_format.read krl.now ≡ Err fault
        → IsErrAnd result (λ e. cause e ≡ Faulty fault) }
    ensures key { SpellsSome SpellsKrl krl.now → (fault : Fault)
        → whole key_data_at key.now ≡ Err fault → IsErrAnd result (λ e. cause e ≡ Faulty fault) }
    ensures unsaid { IfErr result (λ e. cause e ≢ NoMemory → (yes : Bool)
        → IsWhetherKeyRevoked krl.now key.now yes → ⊥) }
    ensures memory { IfErr result (λ e. cause e ≡ NoMemory
        → SpellsSome SpellsKrl krl.now × IsRenamedKey key.now) }
{
    let list = KrlRef::from_bytes(krl)?;
    let key = KeyDataRef::from_bytes(key)?;
    if let Some(bytes) = key.normal_bytes() {
        return Ok(list.revokes_key(bytes));
    }
    let bytes = normal_form(alloc, &key.to_key_data(alloc)?)?;
    Ok(list.revokes_key(&bytes))
}

/// Whether the list revokes the certificate. Fails with the first fault of the list, or else of the
/// certificate, and when out of memory.
pub fn is_certificate_revoked(alloc: Global, krl: &[u8], certificate: &[u8]) -> Result<bool>
    ensures said { IfOk result (IsWhetherCertificateRevoked krl.now certificate.now) }
    ensures list { (fault : Fault) → whole krl_format.read krl.now ≡ Err fault
        → IsErrAnd result (λ e. cause e ≡ Faulty fault) }
    ensures certificate { SpellsSome SpellsKrl krl.now → (fault : Fault)
        → whole certificate_at certificate.now ≡ Err fault
        → IsErrAnd result (λ e. cause e ≡ Faulty fault) }
    ensures unsaid { IfErr result (λ e. cause e ≢ NoMemory → (yes : Bool)
        → IsWhetherCertificateRevoked krl.now certificate.now yes → ⊥) }
    ensures memory { IfErr result (λ e. cause e ≡ NoMemory
        → SpellsSome SpellsKrl krl.now × SpellsSome SpellsCertificate certificate.now) }
{
    let list = KrlRef::from_bytes(krl)?;
    let read = CertificateRef::from_bytes(certificate)?;
    let key = normal_form(alloc, &read.public_key(alloc)?)?;
    let signature_key = normal_form(alloc, &read.signature_key(alloc)?)?;
    Ok(list.revokes_certificate(&key, &signature_key, read.serial(), read.key_id()))
}

/// The bytes of the key's normal form. Fails only when out of memory.
fn normal_form(alloc: Global, key: &KeyData) -> Result<Vec<u8>>
    ensures bytes { IfOk result (λ bytes. bytes.items ≡ flat (normal_key (key_of key.now))) }
    ensures memory { IfErr result (λ e. cause e ≡ NoMemory) }
{
    match encode_vec(alloc, key) {
        Ok(bytes) => Ok(bytes),
        Err(_) => Err(Error::Memory),
    }
}
