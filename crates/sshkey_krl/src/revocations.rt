//! Who says what is revoked.

ghost use denote.Ref.{Bor};
ghost use Rattle.std.specs.List.{list_any};
ghost use Rattle.std.specs.Prelude.{◌≡◌, ℕ, Bool, false, true, IfErr, IfOk, List};
ghost use Rattle.sshkey_cert.specs.Certificates.{certificate_of};
ghost use Rattle.sshkey_keys.specs.Keys.{key_of};
ghost use Rattle.sshkey_krl.specs.KrlRef.{krl_of};
ghost use Rattle.sshkey_krl.specs.declared.krl_ref.KrlRef as slices;
ghost use Rattle.sshkey_krl.specs.Revocation as list;
ghost use Rattle.sshkey_krl.specs.Revocation.{CertificateIdentity, certificate_identity};
ghost use Rattle.sshkey_krl.specs.Revocations as values;
ghost use Rattle.sshkey_krl.specs.Revocations.{only_if_read, unless_read};
ghost use Rattle.sshkey_model.specs.Keys.{normal_key};
ghost use Rattle.sshkey_model.specs.Parts.{flat};

use crate::krl_ref::KrlRef;
use sshkey_base::encode_vec;
use sshkey_cert::Certificate;
use sshkey_keys::KeyData;
use std::alloc::{AllocError, Global};

/// Who says which keys and certificates are revoked: a list, several of them, `NoRevocations`, or
/// code of yours.
///
/// A `Result` is one too, and its `Err` revokes everything. So pass on what reading gave you: a
/// list that could not be read lets nobody in.
pub trait Revocations {
    /// Whether a certificate of the key with those bytes is revoked.
    ghost revokes: { Self → List ℕ → CertificateIdentity → Bool };

    /// Whether the key with those bytes is revoked.
    ghost revokes_key: { Self → List ℕ → Bool };

    /// Holds only if nothing is revoked, so that nobody has to be asked.
    ghost revokes_none: { Self → Bool };

    /// Whoever revokes a key revokes each certificate of it. Does nothing.
    fn whole()
        ensures { (s : Self) (key : List ℕ) (asked : CertificateIdentity) →
            revokes_key s key ≡ true → revokes s key asked ≡ true };

    /// Returns whether nothing is revoked, whatever is asked. `false` is always right. Does not
    /// allocate.
    fn revokes_none(&self) -> bool
        ensures said { result ≡ revokes_none self.now }
        ensures key { revokes_none self.now ≡ true → (key : List ℕ) →
            revokes_key self.now key ≡ false }
        ensures certificate { revokes_none self.now ≡ true → (key : List ℕ) →
            (asked : CertificateIdentity) → revokes self.now key asked ≡ false };

    /// Returns whether the key is revoked. The bytes are its normal form. Does not allocate.
    fn revokes_key(&self, key: &[u8]) -> bool
        ensures { result ≡ revokes_key self.now key.now };

    /// Returns whether a certificate of the key with that serial number and key id is revoked,
    /// which the signature key signed. Both keys are the bytes of their normal form. Does not
    /// allocate.
    fn revokes_certificate(
        &self,
        key: &[u8],
        signature_key: &[u8],
        serial: u64,
        key_id: &str,
    ) -> bool
        ensures { result ≡ revokes self.now key.now
            (certificate_identity signature_key.now serial key_id.now) };

    /// Returns whether the key is revoked. Fails with `AllocError` if it runs out of memory, or if
    /// a part of the key has more than 2^32 - 1 bytes, which no reader gives.
    final fn is_key_revoked(&self, alloc: Global, key: &KeyData) -> Result<bool, AllocError>
    where
        Self: Sized,
        ensures said { IfOk result
            (λ yes. yes ≡ values.is_key_revoked (revokes_key self.now) (key_of key.now)) }
        ensures asks { IfErr result (λ _. revokes_none self.now ≡ false) }
    {
        if self.revokes_none() {
            return Ok(false);
        }
        let key = normal_form(alloc, key)?;
        Ok(self.revokes_key(key.as_slice()))
    }

    /// Returns whether the certificate is revoked. Fails with `AllocError` as `is_key_revoked`
    /// does.
    final fn is_certificate_revoked(
        &self,
        alloc: Global,
        certificate: &Certificate,
    ) -> Result<bool, AllocError>
    where
        Self: Sized,
        ensures said { IfOk result (λ yes. yes
            ≡ values.is_certificate_revoked (revokes self.now) (certificate_of certificate.now)) }
        ensures asks { IfErr result (λ _. revokes_none self.now ≡ false) }
    {
        if self.revokes_none() {
            return Ok(false);
        }
        let key = normal_form(alloc, certificate.public_key())?;
        let signature_key = normal_form(alloc, certificate.signature_key())?;
        Ok(self.revokes_certificate(
            key.as_slice(),
            signature_key.as_slice(),
            certificate.serial(),
            certificate.key_id(),
        ))
    }
}

/// The bytes of the key's normal form.
fn normal_form(alloc: Global, key: &KeyData) -> Result<Vec<u8>, AllocError>
    ensures { IfOk result (λ bytes. bytes.items ≡ flat (normal_key (key_of key.now))) }
{
    match encode_vec(alloc, key) {
        Ok(bytes) => Ok(bytes),
        Err(_) => Err(AllocError),
    }
}

/// Revokes nothing.
#[derive(Clone, Copy, Debug)]
pub struct NoRevocations;

impl Revocations for NoRevocations {
    ghost revokes = { λ _ _ _. false };

    ghost revokes_key = { λ _ _. false };

    ghost revokes_none = { λ _. true };

    fn whole() {}

    fn revokes_none(&self) -> bool {
        true
    }

    fn revokes_key(&self, _key: &[u8]) -> bool {
        false
    }

    fn revokes_certificate(
        &self,
        _key: &[u8],
        _signature_key: &[u8],
        _serial: u64,
        _key_id: &str,
    ) -> bool {
        false
    }
}

/// Revokes what the list does.
impl Revocations for KrlRef<'_> {
    ghost revokes = { λ krl key asked. list.revokes (krl_of krl) key asked };

    ghost revokes_key = { λ krl key. list.revokes_key (krl_of krl) key };

    ghost revokes_none = { λ _. false };

    fn whole()
        ensures { (krl : slices.KrlRef) (key : List ℕ) (asked : CertificateIdentity) →
            list.revokes_key (krl_of krl) key ≡ true → list.revokes (krl_of krl) key asked ≡ true }
    {}

    fn revokes_none(&self) -> bool {
        false
    }

    fn revokes_key(&self, key: &[u8]) -> bool {
        KrlRef::revokes_key(self, key)
    }

    fn revokes_certificate(
        &self,
        key: &[u8],
        signature_key: &[u8],
        serial: u64,
        key_id: &str,
    ) -> bool {
        KrlRef::revokes_certificate(self, key, signature_key, serial, key_id)
    }
}

/// Revokes what was read, and everything if nothing could be read.
impl<R: Revocations, E> Revocations for Result<R, E> {
    ghost revokes = { λ read key asked. unless_read (λ it. R.revokes it key asked) read };

    ghost revokes_key = { λ read key. unless_read (λ it. R.revokes_key it key) read };

    ghost revokes_none = { λ read. only_if_read R.revokes_none read };

    fn whole() {
        R::whole();
    }

    fn revokes_none(&self) -> bool {
        match self {
            Ok(revocations) => revocations.revokes_none(),
            Err(_) => false,
        }
    }

    fn revokes_key(&self, key: &[u8]) -> bool {
        match self {
            Ok(revocations) => revocations.revokes_key(key),
            Err(_) => true,
        }
    }

    fn revokes_certificate(
        &self,
        key: &[u8],
        signature_key: &[u8],
        serial: u64,
        key_id: &str,
    ) -> bool {
        match self {
            Ok(revocations) => revocations.revokes_certificate(key, signature_key, serial, key_id),
            Err(_) => true,
        }
    }
}

/// Revokes what one of them does: an empty slice revokes nothing. Keep the `Err` of a list that
/// could not be read as an item.
impl<R: Revocations> Revocations for &[R] {
    ghost revokes = { λ all key asked. list_any (λ it. R.revokes it key asked) all.now };

    ghost revokes_key = { λ all key. list_any (λ it. R.revokes_key it key) all.now };

    ghost revokes_none = { λ _. false };

    fn whole()
        ensures { (all : Bor (List R)) (key : List ℕ) (asked : CertificateIdentity) →
            list_any (λ it. R.revokes_key it key) all.now ≡ true →
            list_any (λ it. R.revokes it key asked) all.now ≡ true }
    {
        R::whole();
    }

    fn revokes_none(&self) -> bool {
        false
    }

    fn revokes_key(&self, key: &[u8]) -> bool {
        self.iter().any(|it| it.revokes_key(key))
    }

    fn revokes_certificate(
        &self,
        key: &[u8],
        signature_key: &[u8],
        serial: u64,
        key_id: &str,
    ) -> bool {
        self.iter().any(|it| it.revokes_certificate(key, signature_key, serial, key_id))
    }
}
