//! What a verifier is asked about a certificate.

ghost use Rattle.std.specs.Cow.{cow_slice_items};
ghost use Rattle.std.specs.Prelude.{◌≡◌, IfOk, IfErr};
ghost use Rattle.sshkey_base.specs.Causes.{NoMemory, cause};
ghost use Rattle.sshkey_base.specs.declared.error.Error.TheVariants as wide;
ghost use Rattle.sshkey_cert.specs.Validity.{certificate_question};
ghost use Rattle.sshkey_keys.specs.Questions.{asks};
ghost use Rattle.sshkey_model.specs.Certificates.{normal_to_be_signed};
ghost use Rattle.sshkey_model.specs.Parts.{flat};
ghost use Rattle.sshkey_cert_ref.specs.CertificateRef.{IsUnplain, certificate_of};

use super::CertificateRef;
use sshkey_base::{Error, Result};
use sshkey_keys::SignatureQuestion;
use std::alloc::Global;
use std::borrow::CowSlice;

impl<'a> CertificateRef<'a> {
    /// What a verifier is asked about the certificate, with the memory that this takes. Fails only
    /// when out of memory.
    pub fn question(&self, alloc: Global) -> Result<SignatureQuestion<'a>>
        ensures value { IfOk result
            (λ q. asks q ≡ certificate_question (certificate_of self.now)) }
        ensures memory { IfErr result (λ e. cause e ≡ NoMemory) }
    {
        let message = self.message(alloc)?;
        let signature = self.signature(alloc)?;
        let key = self.signature_key(alloc)?;
        Ok(SignatureQuestion::new(key, message, signature))
    }

    /// The bytes that the signature is over: a part of the certificate where they are one, and else
    /// made anew. Fails only when out of memory.
    pub(super) fn message(&self, alloc: Global) -> Result<CowSlice<'a, u8>>
        ensures value { IfOk result (λ m. cow_slice_items m
            ≡ flat (normal_to_be_signed (certificate_of self.now).signed)) }
        ensures memory { IfErr result (λ e. e ≡ wide.Memory) }
        ensures asks { IfErr result (λ _. IsUnplain self.now) }
    {
        if let Some(signed) = self.signed_bytes() {
            return Ok(CowSlice::Borrowed(signed));
        }
        match self.to_certificate(alloc) {
            Ok(certificate) => Ok(CowSlice::Owned(certificate.signed_bytes(alloc)?)),
            Err(_) => Err(Error::Memory),
        }
    }
}
