//! What a verifier is asked about a certificate.

ghost use Rattle.std.specs.Prelude.{◌≡◌, IfErr, IfOk};
ghost use Rattle.sshkey_base.specs.Causes.{NoMemory, cause};
ghost use Rattle.sshkey_keys.specs.Questions.{asks};
ghost use Rattle.sshkey_cert.specs.Certificates.{certificate_of};
ghost use Rattle.sshkey_cert.specs.Validity.{certificate_question};

use super::Certificate;
use sshkey_base::Result;
use sshkey_keys::SignatureQuestion;
use std::alloc::Global;
use std::borrow::CowSlice;

impl Certificate {
    /// What a verifier is asked about the certificate, in memory of its own: it may be kept when
    /// the certificate is dropped. Fails only when out of memory.
    pub fn question(&self, alloc: Global) -> Result<SignatureQuestion<'static>>
        ensures value { IfOk result
            (λ q. asks q ≡ certificate_question (certificate_of self.now)) }
        ensures memory { IfErr result (λ e. cause e ≡ NoMemory) }
    {
        let message = self.signed_bytes(alloc)?;
        let signature = self.signature.try_clone(alloc)?;
        let key = self.fields.signature_key.try_clone(alloc)?;
        Ok(SignatureQuestion::new(key, CowSlice::Owned(message), signature))
    }
}
