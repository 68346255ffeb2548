//! What an agent answers.

ghost use Rattle.std.specs.Prelude.{◌≡◌, ◌+◌, ◌^◌};
ghost use Rattle.ssh_key.specs.base.Sink.{Encodes, MeasuresBoxed};
ghost use Rattle.ssh_key.specs.model.Parts.{box};
ghost use Rattle.agent.specs.Responses as model;
ghost use Rattle.agent.specs.Responses.{IsWellFormed, answered, body, given, given_of, response, response_format, response_of};

mod extension;
mod kind;

use crate::frame::{Framed, decode_frame, encode_frame, frame_len};
use crate::identity::Identity;
use crate::numbers::{EXTENSION_FAILURE, FAILURE, IDENTITIES_ANSWER, SIGN_RESPONSE, SUCCESS};
use extension::{encode_extension, extension_from, extension_len};
use kind::ResponseKind;
use ssh_key::encoding::{Bytes, Decode, Encode, NormalForm, Reader, Writer, u32_of};
use ssh_key::terms::{Counted, LengthPrefixed, Wide, counted_len, encode_counted};
use ssh_key::{Error, Result, Signature, encoding};
use std::alloc::Global;

/// An answer (draft-miller-ssh-agent, section 4).
pub enum Response {
    /// The agent refused.
    Failure,
    /// The agent did it.
    Success,
    /// The keys that it holds.
    IdentitiesAnswer(Vec<Identity>),
    /// The signature.
    SignResponse(Signature),
    /// The agent refused a request of an extension that it has.
    ExtensionFailure,
    /// What an extension answers.
    ExtensionResponse {
        /// Its name.
        name: Bytes,
        /// What it says. Of `query` these are the names of the extensions that the agent has.
        contents: Vec<Bytes>,
    },
}

/// By hand, so that who holds a response lets it go by one call.
impl Drop for Response {
    fn drop(self) {
        match self {
            Response::Failure
            | Response::Success
            | Response::IdentitiesAnswer(_)
            | Response::SignResponse(_)
            | Response::ExtensionFailure
            | Response::ExtensionResponse {
                name: _,
                contents: _,
            } => {}
        }
    }
}

/// A length of four bytes, the number of the response in one byte, and what it holds.
///
/// Fails with `Length` where a stated length or count passes what is left, unless memory ran out
/// for a value before it, with `TrailingData` where bytes of the frame are left over, with
/// `FormatEncoding` for the number of no response, and with the errors of what it holds. Such a
/// length or count allocates nothing.
///
/// The draft leaves it to each extension what follows its name in an answer. Here strings do, up to
/// the end of the frame, as in OpenSSH's answer to `query`. Any other contents can't be read.
#[tactic(auto, using(crate::proofs::Lawful::response_lawful))]
impl Decode for Response {
    type Error = Error;

    ghost Meaning = { model.Response };

    ghost means = { response_of };

    ghost format = { response_format };

    fn lawful() {}

    fn decode<R: Reader>(alloc: Global, reader: &mut R) -> Result<Response> {
        decode_frame(alloc, reader)
    }
}

/// Fails with `Length` where a frame can't hold the response, or a string in it is too long.
impl Encode for Response {
    ghost normal = { λ r. box (response r) };

    ghost max_len = { 2 ^ 32 + 3 };

    fn encoded_len(&self) -> encoding::Result<usize> {
        frame_len(self)
    }

    fn encode<W: Writer>(&self, writer: &mut W) -> encoding::Result<()> {
        encode_frame(self, writer)
    }
}

/// The signature has the form that its algorithm asks for.
#[tactic(auto, using(crate::proofs::Responses::response_normal))]
impl NormalForm for Response {
    ghost IsWellFormed = { IsWellFormed };

    fn lawful_normal_form() {}
}

impl Response {
    /// The signature, if it is one that the agent answered.
    pub fn into_signature(self) -> Option<Signature>
        ensures { result ≡ given_of self }
    {
        match self {
            Response::SignResponse(signature) => Some(signature),
            Response::Failure
            | Response::Success
            | Response::IdentitiesAnswer(_)
            | Response::ExtensionFailure
            | Response::ExtensionResponse {
                name: _,
                contents: _,
            } => None,
        }
    }
}

impl Framed for Response {
    type Kind = ResponseKind;

    ghost Meaning = { model.Response };

    ghost means = { response_of };

    ghost body = { body };

    ghost message = { response };

    fn lawful_bodies() {}

    fn body_from<R: Reader>(alloc: Global, reader: &mut R, kind: ResponseKind) -> Result<Response> {
        match kind {
            ResponseKind::Failure => Ok(Response::Failure),
            ResponseKind::Success => Ok(Response::Success),
            ResponseKind::IdentitiesAnswer => {
                let Wide(Counted(identities)) = Wide::<Counted<Identity>>::decode(alloc, reader)?;
                Ok(Response::IdentitiesAnswer(identities))
            }
            ResponseKind::SignResponse => {
                let LengthPrefixed(signature) = LengthPrefixed::<Signature>::decode(alloc, reader)?;
                Ok(Response::SignResponse(signature))
            }
            ResponseKind::ExtensionFailure => Ok(Response::ExtensionFailure),
            ResponseKind::ExtensionResponse => extension_from(alloc, reader),
        }
    }

    #[tactic(auto, using(ssh_key::proofs::Writing::measuring_leaves))]
    fn message_len(&self) -> encoding::Result<u32> {
        match self {
            Response::Failure | Response::Success | Response::ExtensionFailure => Ok(1),
            Response::IdentitiesAnswer(identities) => answer_len(identities),
            Response::SignResponse(signature) => signed_len(signature),
            Response::ExtensionResponse { name, contents } => extension_len(name, contents),
        }
    }

    fn encode_message<W: Writer>(&self, writer: &mut W) -> encoding::Result<()> {
        match self {
            Response::Failure => FAILURE.encode(writer),
            Response::Success => SUCCESS.encode(writer),
            Response::IdentitiesAnswer(identities) => encode_answer(identities, writer),
            Response::SignResponse(signature) => encode_signed(signature, writer),
            Response::ExtensionFailure => EXTENSION_FAILURE.encode(writer),
            Response::ExtensionResponse { name, contents } => {
                encode_extension(name, contents, writer)
            }
        }
    }
}

/// How many bytes the answer has that holds these keys.
fn answer_len(identities: &[Identity]) -> encoding::Result<u32>
    ensures { MeasuresBoxed (answered identities.now) result }
{
    u32_of(1 + counted_len(identities)? as usize)
}

/// Writes the answer that holds these keys.
#[tactic(auto, using(ssh_key::proofs::Writing::writing))]
fn encode_answer<W: Writer>(identities: &[Identity], writer: &mut W) -> encoding::Result<()>
    ensures { Encodes W.fault (answered identities.now)
        (W.sink writer.old) result (W.sink writer.new) }
{
    IDENTITIES_ANSWER.encode(writer)?;
    encode_counted(identities, writer)
}

/// How many bytes the answer has that holds the signature.
fn signed_len(signature: &Signature) -> encoding::Result<u32>
    ensures { MeasuresBoxed (given signature.now) result }
{
    u32_of(1 + signature.encoded_len_prefixed()?)
}

/// Writes the answer that holds the signature.
#[tactic(auto, using(ssh_key::proofs::Writing::writing))]
fn encode_signed<W: Writer>(signature: &Signature, writer: &mut W) -> encoding::Result<()>
    ensures { Encodes W.fault (given signature.now)
        (W.sink writer.old) result (W.sink writer.new) }
{
    SIGN_RESPONSE.encode(writer)?;
    signature.encode_prefixed(writer)
}
