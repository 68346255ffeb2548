//! A login of which all is right but the signatures.

ghost use Rattle.std.specs.Prelude.{◌≡◌, ◌↔◌, IfOk, IsTrue, option_map};
ghost use Rattle.login_policy.specs.declared.refusal.LoginRefusal.TheVariants.{Invalid};
ghost use Rattle.sshkey_cert.specs.declared.certificate.refusal.CertificateRefusal.TheVariants.{Signature};
ghost use Rattle.sshkey_keys.specs.Questions.{asks};
ghost use Rattle.openssh_limits.specs.Padding.{padding};
ghost use Rattle.publickey_login.specs.Grants.{IsAnswered};
ghost use Rattle.publickey_login.specs.Results.{Decides, DecidesBy, authority_in, client_in};
ghost use Rattle.publickey_login.specs.declared.refusal.PublickeyRefusal.TheVariants.{Certificate};

use crate::grant::PublickeyGrant;
use crate::refusal::PublickeyRefusal;
use login_policy::LoginRefusal;
use openssh_limits::Padding;
use sshkey_cert::CertificateRefusal;
use sshkey_keys::{RawVerifier, SignatureQuestion};
use std::alloc::AllocError;

/// A login of which all is right but the signatures, which nobody has looked at: nothing is granted
/// before what is asked about them is answered.
#[derive(Drop)]
pub struct Pending {
    pub(crate) grant: PublickeyGrant,
    pub(crate) authority: Option<SignatureQuestion<'static>>,
    pub(crate) client: Option<SignatureQuestion<'static>>,
}

/// What a verifier says of the questions that are asked. An answer to one that is not asked does not
/// count.
#[derive(Debug, Clone, Copy)]
pub struct Answers {
    /// Whether the authority's signature of the certificate is one.
    pub authority: bool,
    /// Whether the client's signature is one.
    pub client: bool,
}

impl Pending {
    /// What a verifier is asked about the authority's signature, of a login by a certificate. Does
    /// not allocate.
    pub fn authority_question(&self) -> Option<&SignatureQuestion<'static>>
        ensures { option_map (λ q. asks q.now) result ≡ authority_in self.now }
    {
        self.authority.as_ref()
    }

    /// What a verifier is asked about the client's signature, unless somebody else has verified it.
    /// Does not allocate.
    pub fn client_question(&self) -> Option<&SignatureQuestion<'static>>
        ensures { option_map (λ q. asks q.now) result ≡ client_in self.now }
    {
        self.client.as_ref()
    }

    /// What is granted, where the answer to each question that is asked is yes. Else it fails:
    /// first with `Certificate` of `Invalid` with `Signature`, where the authority's is asked, and
    /// then with `NotSigned`. Does not allocate.
    pub fn decide(self, answers: Answers) -> Result<PublickeyGrant, PublickeyRefusal>
        ensures { Decides self answers result }
    {
        if self.authority.is_some() && !answers.authority {
            return Err(uncertified());
        }
        if self.client.is_some() && !answers.client {
            return Err(PublickeyRefusal::NotSigned);
        }
        Ok(self.grant)
    }

    /// What `decide` says of the answers of this verifier, which is asked the questions: about an RSA
    /// signature with the zeros in front that its signer left out (`openssh_limits::Padding`).
    /// `Memory` if memory runs out.
    pub fn decide_by<V: RawVerifier>(self, verifier: &V) -> Result<PublickeyGrant, PublickeyRefusal>
        ensures { DecidesBy (padding (V.accepts verifier.now)) self result }
    {
        let padded = Padding { verifier };
        // the client's is asked about only where the authority's is one
        let authority = is_answered(&self.authority, &padded)?;
        if !authority {
            return self.decide(Answers {
                authority,
                client: false,
            });
        }
        let client = is_answered(&self.client, &padded)?;
        self.decide(Answers { authority, client })
    }
}

/// Why a certificate is refused whose signature is none of its authority's.
fn uncertified() -> PublickeyRefusal
    ensures { result ≡ Certificate (Invalid Signature) }
{
    PublickeyRefusal::Certificate(LoginRefusal::Invalid(CertificateRefusal::Signature))
}

/// Whether the verifier says yes to the question, if there is one.
fn is_answered<V: RawVerifier>(
    question: &Option<SignatureQuestion<'static>>,
    verifier: &V,
) -> Result<bool, AllocError>
    ensures { IfOk result (λ yes. IsTrue yes
        ↔ IsAnswered (V.accepts verifier.now) (option_map asks question.now)) }
{
    match question {
        Some(question) => question.is_accepted(verifier),
        None => Ok(true),
    }
}
