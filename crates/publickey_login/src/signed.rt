//! Who has seen the client's signature, and what is left to ask about it.

ghost use Rattle.std.specs.Prelude.{◌≡◌, ◌≢◌, IfErr, OnOk, option_map};
ghost use Rattle.sshkey_keys.specs.Keys.{key_of};
ghost use Rattle.sshkey_userauth.specs.Values.{lent};
ghost use Rattle.publickey_login.specs.Signatures.{IsWhyFlagsOf, IsWhyNoFlags, IsWhyUnnamed, IsWhyUnsigned, NeedsMemory, AreFlags, HasFlags, IsLeft, IsNamed};
ghost use Rattle.publickey_login.specs.Values.{LeavesExactly, offer_of, signed_of};
ghost use Rattle.publickey_login.specs.declared.refusal.PublickeyRefusal.TheVariants.{Memory};

use crate::offer::Offer;
use crate::refusal::PublickeyRefusal;
use crate::request::{is_same, request_question};
use sshkey_keys::{KeyData, SignatureQuestion};
use sshkey_userauth::{
    CONNECTION, KeyForm, Requirements, UserauthRequest, check_flag_byte, form_under,
};
use std::alloc::Global;

/// Who has seen the client's signature. There is no other way in.
#[derive(Debug, Clone, Copy)]
pub enum Signed<'a> {
    /// Nobody: it is asked about here.
    Request {
        /// The identifier of the session: the server's own, and nothing that the client sent.
        session_id: &'a [u8],
        /// The blob of the server's own host key, where the request's method has one, and nothing
        /// that the client sent.
        host_key: Option<&'a [u8]>,
        /// The bytes of the signature, as they were sent.
        signature: &'a [u8],
    },
    /// The caller's library for SSH: it has verified the signature of this user's request under the
    /// offered blob's own key.
    ByTransport {
        /// The flags in the signature of a security key, if the library tells them.
        flags: Option<u8>,
    },
    /// sshd(8): it verifies the signature itself, and looks at its flags.
    BySshd,
}

/// What is left to ask about the client's signature under the key, which is offered by itself or in
/// a certificate: the question of its request, or nothing, where somebody else has verified it. The
/// login is the client's only if a verifier says yes to what is left.
///
/// Unless memory runs out, it fails with the first of these that fits. Of a `Request`:
/// - `Algorithm`: there is no name;
/// - `TooLong`;
/// - `NoSignature` with the fault;
/// - `Signature` with what `UserauthRequest::key_form` fails with;
/// - `Algorithm`: the name is a key's, and a certificate is offered, or the other way round.
///
/// Of what somebody else has verified:
/// - `Algorithm`: there is a name, and it is none of the key's in that form;
/// - of a security key `ByTransport`, `Signature` with what is missing of the flags, and `NoFlags`
///   where none are told and some are required.
pub fn client_question(
    alloc: Global,
    offer: &Offer,
    signed: &Signed,
    requirements: Requirements,
    key: KeyData,
    form: KeyForm,
) -> Result<Option<SignatureQuestion<'static>>, PublickeyRefusal>
    ensures exactly { LeavesExactly (IsLeft (offer_of offer.now) (signed_of signed.now) requirements
        (key_of key) form) result }
    ensures refused { IfErr result (λ r. r ≢ Memory → IsWhyUnsigned (offer_of offer.now)
        (signed_of signed.now) requirements (key_of key) form r) }
    ensures memory { IfErr result (λ r. r ≡ Memory → NeedsMemory (signed_of signed.now)) }
{
    match signed {
        Signed::Request {
            session_id,
            host_key,
            signature,
        } => {
            let Some(algorithm) = offer.algorithm else {
                return Err(PublickeyRefusal::Algorithm);
            };
            let request = UserauthRequest {
                session_id,
                user: offer.user.as_bytes(),
                service: CONNECTION,
                algorithm,
                public_key: offer.blob,
                host_key: *host_key,
            };
            match request_question(alloc, &request, signature, requirements, key, form) {
                Ok(question) => Ok(Some(question)),
                Err(refusal) => Err(refusal),
            }
        }
        Signed::ByTransport { flags } => {
            check_name(offer.algorithm, &key, form)?;
            check_told_flags(&key, requirements, *flags)?;
            Ok(None)
        }
        Signed::BySshd => {
            check_name(offer.algorithm, &key, form)?;
            Ok(None)
        }
    }
}

/// Whether the name, if one is told, is that of such a key in that form.
pub(crate) fn check_name(
    name: Option<&[u8]>,
    key: &KeyData,
    form: KeyForm,
) -> Result<(), PublickeyRefusal>
    ensures named { OnOk result (IsNamed (option_map lent name.entry) (key_of key.now) form) }
    ensures other { IfErr result (λ r. IsWhyUnnamed (option_map lent name.entry) (key_of key.now)
        form r) }
{
    let Some(name) = name else {
        return Ok(());
    };
    let Some(named) = form_under(name, key) else {
        return Err(PublickeyRefusal::Algorithm);
    };
    if !is_same(named, form) {
        return Err(PublickeyRefusal::Algorithm);
    }
    Ok(())
}

/// Whether the flags that are told of a security key are what is required.
fn check_told_flags(
    key: &KeyData,
    requirements: Requirements,
    flags: Option<u8>,
) -> Result<(), PublickeyRefusal>
    ensures right { OnOk result (HasFlags (key_of key.now) requirements flags) }
    ensures wrong { IfErr result (λ r. IsWhyFlagsOf (key_of key.now) requirements flags r) }
{
    match key {
        KeyData::SkEcdsaSha2NistP256(_) | KeyData::SkEd25519(_) => check_flags(requirements, flags),
        KeyData::Dsa(_)
        | KeyData::Ecdsa(_)
        | KeyData::Ed25519(_)
        | KeyData::Rsa(_)
        | KeyData::Other(_) => Ok(()),
    }
}

/// Whether the flags are what is required, and nothing is where none are told.
fn check_flags(requirements: Requirements, flags: Option<u8>) -> Result<(), PublickeyRefusal>
    ensures right { OnOk result (AreFlags requirements flags) }
    ensures wrong { IfErr result (λ r. IsWhyNoFlags requirements flags r) }
{
    if flags.is_none() && (requirements.touch_required || requirements.verify_required) {
        return Err(PublickeyRefusal::NoFlags);
    }
    match check_flag_byte(flags, requirements) {
        Ok(()) => Ok(()),
        Err(refusal) => Err(PublickeyRefusal::Signature(refusal)),
    }
}
