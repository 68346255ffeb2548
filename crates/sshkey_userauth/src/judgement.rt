//! What is asked about a client's signature.

ghost use Rattle.std.specs.Prelude.{◌≡◌, IfOk, IfErr, Err};
ghost use Rattle.sshkey_keys.specs.Questions.{asks};
ghost use Rattle.sshkey_keys.specs.Signatures.{signature_of};
ghost use Rattle.sshkey_userauth.specs.Judgements.{IsAsked, IsRefused, judged};
ghost use Rattle.sshkey_userauth.specs.RequestFormats.{SpellsUserauthRequest};
ghost use Rattle.sshkey_userauth.specs.Values.{request_of};
ghost use Rattle.sshkey_userauth.specs.declared.refusal.UserauthRefusal.TheVariants as refusals;

mod flags;
mod key;
mod name;

use crate::refusal::UserauthRefusal;
use crate::request::UserauthRequest;
pub use flags::{check_flag_byte, check_flags};
use key::key_in;
use name::form_of;
pub use name::{KeyForm, form_under};
use sshkey_keys::{Signature, SignatureQuestion};
use std::alloc::Global;
use std::borrow::CowSlice;

/// The service that starts after a login (RFC 4254).
pub const CONNECTION: &[u8] = b"ssh-connection";

/// What a grant requires of the flags in the signatures of security keys (PROTOCOL.u2f). Other keys
/// have no flags, and are not asked for any.
#[derive(Clone, Copy, Debug)]
pub struct Requirements {
    /// Whether somebody has to have touched the security key: the bit 0x01.
    pub touch_required: bool,
    /// Whether the security key has to have verified its user: the bit 0x04.
    pub verify_required: bool,
}

impl UserauthRequest<'_> {
    /// What a verifier is asked about the client's signature over these bytes. The flags of a
    /// security key are those that are required: else there is no question.
    ///
    /// `self` is what the server expects: its own session identifier, the user that the grant is
    /// for, and the key or the certificate that the grant came from. Whoever has no signed bytes
    /// takes those of `to_bytes`. An RSA signature is asked about as the client made it; sshd(8)
    /// verifies it with the zeros in front that were left out, as `openssh_limits::Padding` does.
    ///
    /// Fails with the first of these: `SignedBytes` exactly if `signed` are not the bytes of the
    /// request; `Service`; `Algorithm` if the request's name is not that of the signature's
    /// algorithm, as sshd(8) compares them: a certificate's name stands for its plain one, and
    /// `rsa-sha2-256` is not `rsa-sha2-512`; `Touch` and `Verification` if the flags of a security
    /// key lack what is required; `Key` with the fault if the request holds no key, or no
    /// certificate, as its name says; and `Memory`.
    pub fn question<'a>(
        &self,
        alloc: Global,
        signed: &'a [u8],
        signature: Signature,
        requirements: Requirements,
    ) -> Result<SignatureQuestion<'a>, UserauthRefusal>
        ensures other { (SpellsUserauthRequest (request_of self.now) signed.now → ⊥)
            → result ≡ Err refusals.SignedBytes }
        ensures asked { IfOk result (λ q. IsAsked (request_of self.now) requirements
            (signature_of signature) (asks q)) }
        ensures refused { SpellsUserauthRequest (request_of self.now) signed.now → IfErr result
            (λ e. IsRefused (request_of self.now) requirements (signature_of signature) e) }
    {
        if !self.is_spelled(signed) {
            return Err(UserauthRefusal::SignedBytes);
        }
        let form = self.key_form(&signature, requirements)?;
        let key = key_in(alloc, form, self.public_key)?;
        let message = CowSlice::Borrowed(signed);
        Ok(SignatureQuestion::new(key, message, signature))
    }

    /// How the key stands in the request, by its algorithm's name: as itself or in a certificate.
    /// It looks at neither key nor signed bytes, and verifies nothing. Does not allocate.
    ///
    /// Fails with the first of these: `Service`; `Algorithm`, `Touch` and `Verification`, as
    /// `question` does.
    pub fn key_form(
        &self,
        signature: &Signature,
        requirements: Requirements,
    ) -> Result<KeyForm, UserauthRefusal>
        ensures { result ≡ judged (request_of self.now) requirements (signature_of signature.now) }
    {
        if self.service != CONNECTION {
            return Err(UserauthRefusal::Service);
        }
        match form_of(self.algorithm, signature.algorithm()) {
            Some(form) => match check_flags(signature, requirements) {
                Ok(()) => Ok(form),
                Err(refusal) => Err(refusal),
            },
            None => Err(UserauthRefusal::Algorithm),
        }
    }
}
