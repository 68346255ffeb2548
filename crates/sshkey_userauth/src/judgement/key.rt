//! The key in a request.

ghost use Rattle.sshkey_userauth.specs.Judgements.{ReadsKey};
ghost use Rattle.sshkey_userauth.specs.declared.judgement.name.KeyForm.TheVariants as forms;

use super::name::KeyForm;
use crate::refusal::UserauthRefusal;
use sshkey_cert_ref::CertificateRef;
use sshkey_keys::KeyData;
use sshkey_keys_ref::KeyDataRef;
use std::alloc::Global;

/// The key that all the bytes spell, or the one that the certificate is about.
pub(super) fn key_in(alloc: Global, form: KeyForm, bytes: &[u8]) -> Result<KeyData, UserauthRefusal>
    ensures { ReadsKey form bytes.now result }
{
    match form {
        KeyForm::Plain => plain_key(alloc, bytes),
        KeyForm::Certified => certified_key(alloc, bytes),
    }
}

/// The key that all the bytes spell.
fn plain_key(alloc: Global, bytes: &[u8]) -> Result<KeyData, UserauthRefusal>
    ensures { ReadsKey forms.Plain bytes.now result }
{
    match KeyDataRef::from_bytes(bytes) {
        Ok(key) => match key.to_key_data(alloc) {
            Ok(key) => Ok(key),
            Err(_) => Err(UserauthRefusal::Memory),
        },
        Err(error) => Err(UserauthRefusal::Key(error)),
    }
}

/// The key that the certificate is about that all the bytes spell.
fn certified_key(alloc: Global, bytes: &[u8]) -> Result<KeyData, UserauthRefusal>
    ensures { ReadsKey forms.Certified bytes.now result }
{
    match CertificateRef::from_bytes(bytes) {
        Ok(certificate) => match certificate.public_key(alloc) {
            Ok(key) => Ok(key),
            Err(_) => Err(UserauthRefusal::Memory),
        },
        Err(error) => Err(UserauthRefusal::Key(error)),
    }
}
