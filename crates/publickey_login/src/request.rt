//! The signature of a request.

ghost use Rattle.std.specs.Prelude.{◌≡◌, ◌↔◌, IfErr, IfOk, IsTrue};
ghost use Rattle.sshkey_keys.specs.Keys.{key_of};
ghost use Rattle.sshkey_keys.specs.Questions.{asks};
ghost use Rattle.sshkey_userauth.specs.Values.{request_of};
ghost use Rattle.publickey_login.specs.Signatures.{IsRefusalFor, IsWhyUnasked, IsAskedOfRequest};
ghost use Rattle.publickey_login.specs.declared.refusal.PublickeyRefusal.TheVariants.{NoSignature, TooLong};

use crate::refusal::PublickeyRefusal;
use sshkey_base::Error;
use sshkey_keys::{KeyData, Signature, SignatureQuestion};
use sshkey_userauth::{KeyForm, Requirements, UserauthRequest};
use std::alloc::Global;
use std::borrow::CowSlice;

/// What is asked about the signature of the request under the key, which stands in it in that form.
pub(crate) fn request_question(
    alloc: Global,
    request: &UserauthRequest,
    signature: &[u8],
    requirements: Requirements,
    key: KeyData,
    form: KeyForm,
) -> Result<SignatureQuestion<'static>, PublickeyRefusal>
    ensures asked { IfOk result (λ q. IsAskedOfRequest (request_of request.now) requirements
        (key_of key) form signature.now (asks q)) }
    ensures refused { IfErr result (λ r. IsWhyUnasked (request_of request.now) requirements form
        signature.now r) }
{
    let message = match request.to_bytes(alloc) {
        Ok(message) => message,
        Err(error) => return Err(unsent(&error)),
    };
    let signature = match Signature::from_bytes(alloc, signature) {
        Ok(signature) => signature,
        Err(error) => return Err(no_signature(error)),
    };
    match request.key_form(&signature, requirements) {
        Ok(named) => {
            if !is_same(named, form) {
                return Err(PublickeyRefusal::Algorithm);
            }
        }
        Err(refusal) => return Err(PublickeyRefusal::Signature(refusal)),
    }
    let message = CowSlice::Owned(message);
    Ok(SignatureQuestion::new(key, message, signature))
}

/// Why the bytes of a request are not made.
fn unsent(error: &Error) -> PublickeyRefusal
    ensures { IsRefusalFor TooLong error.now result }
{
    if error.is_memory() {
        return PublickeyRefusal::Memory;
    }
    PublickeyRefusal::TooLong
}

/// Why bytes are no signature.
fn no_signature(error: Error) -> PublickeyRefusal
    ensures { IsRefusalFor (NoSignature error) error result }
{
    if error.is_memory() {
        return PublickeyRefusal::Memory;
    }
    PublickeyRefusal::NoSignature(error)
}

/// Whether both are the same form.
pub(crate) fn is_same(one: KeyForm, other: KeyForm) -> bool
    ensures { IsTrue result ↔ (one ≡ other) }
{
    match (one, other) {
        (KeyForm::Plain, KeyForm::Plain) | (KeyForm::Certified, KeyForm::Certified) => true,
        (KeyForm::Plain, KeyForm::Certified) | (KeyForm::Certified, KeyForm::Plain) => false,
    }
}
