//! A login of which all is right but the authority's signature.

ghost use Rattle.std.specs.Prelude.{◌≡◌, IfErr, IfOk};
ghost use Rattle.sshkey_base.specs.Causes.{NoMemory, cause};
ghost use Rattle.sshkey_cert.specs.Validity.{certificate_question};
ghost use Rattle.sshkey_keys.specs.Questions.{asks};
ghost use Rattle.openssh_limits.specs.Padding.{padding};
ghost use Rattle.login_policy.specs.Logins.{Decides, DecidesBy, certificate_in};

use crate::grant::Grant;
use crate::refusal::LoginRefusal;
use openssh_limits::Padding;
use sshkey_cert::{Certificate, CertificateRefusal};
use sshkey_keys::{RawVerifier, SignatureQuestion};
use std::alloc::Global;

/// A login of which all is right but the authority's signature, which nobody has looked at: nothing
/// is granted before the one question about it is answered.
#[derive(Drop)]
pub struct Pending {
    pub(crate) certificate: Certificate,
    pub(crate) grant: Grant,
}

impl Pending {
    /// What a verifier is asked about the authority's signature. There is always a question: a
    /// certificate that raises none is refused. Fails only when out of memory.
    pub fn question(&self, alloc: Global) -> sshkey_base::Result<SignatureQuestion<'static>>
        ensures value { IfOk result
            (λ q. asks q ≡ certificate_question (certificate_in self.now)) }
        ensures memory { IfErr result (λ e. cause e ≡ NoMemory) }
    {
        self.certificate.question(alloc)
    }

    /// What is granted, where a verifier that was asked the question said yes; else `Invalid` with
    /// `Signature`. Does not allocate.
    pub fn decide(self, is_signed: bool) -> Result<Grant, LoginRefusal>
        ensures { Decides self is_signed result }
    {
        if !is_signed {
            return Err(LoginRefusal::Invalid(CertificateRefusal::Signature));
        }
        Ok(self.grant)
    }

    /// What `decide` says of the answer of this verifier, which is asked the question. `Memory` if
    /// memory runs out.
    pub fn decide_by<V: RawVerifier>(
        self,
        alloc: Global,
        verifier: &V,
    ) -> Result<Grant, LoginRefusal>
        ensures { DecidesBy (padding (V.accepts verifier.now)) self result }
    {
        match self
            .certificate
            .verify_signature(alloc, &Padding { verifier })
        {
            Ok(()) => self.decide(true),
            Err(error) => if error.is_memory() {
                Err(LoginRefusal::Memory)
            } else {
                self.decide(false)
            },
        }
    }
}
