//! What a client asks of an agent.

ghost use Rattle.std.specs.Prelude.{◌+◌, ◌^◌};
ghost use Rattle.ssh_key.specs.model.Parts.{box};
ghost use Rattle.agent.specs.Requests as model;
ghost use Rattle.agent.specs.Requests.{IsWellFormed, body, request, request_format, request_of};

mod constrained;
mod kind;

use crate::addition::Addition;
use crate::constraint::Constraint;
use crate::frame::{Framed, decode_frame, encode_frame, frame_len, message_len};
use crate::numbers::{
    ADD_IDENTITY, LOCK, REMOVE_ALL_IDENTITIES, REMOVE_IDENTITY, REQUEST_IDENTITIES, SIGN_REQUEST,
    UNLOCK,
};
use crate::sign_request::SignRequest;
use constrained::{constrained_from, constrained_len, encode_constrained};
use kind::RequestKind;
use ssh_key::encoding::{Bytes, Decode, Encode, NormalForm, Reader, Writer, encode_both};
use ssh_key::terms::Wide;
use ssh_key::{Error, Result, encoding};
use std::alloc::Global;

/// A request (draft-miller-ssh-agent, section 4). It has no `Debug`: it may hold a passphrase, over
/// which it writes zeros when it is dropped.
///
/// An agent over this must itself do the rest of what ssh-agent does. By a security key whose
/// application does not begin with `ssh:` it signs only messages of SSH itself, logins and SSH
/// signatures: any other message may be a website's. A request that cannot be read is answered by
/// `Response::Failure`, and the connection stays.
pub enum Request {
    /// Which keys the agent holds.
    RequestIdentities,
    /// A signature.
    SignRequest(SignRequest),
    /// Hold this key.
    AddIdentity(Addition),
    /// Forget the key of that blob.
    RemoveIdentity(Bytes),
    /// Forget all keys.
    RemoveAllIdentities,
    /// Use no key until `Unlock` gives that passphrase.
    Lock(Bytes),
    /// Use the keys again: the passphrase.
    Unlock(Bytes),
    /// Hold this key, with limits.
    AddIdentityConstrained {
        /// The key.
        addition: Addition,
        /// What limits its use. An agent refuses the key where it does not know one of them, and
        /// OpenSSH's also where one is told twice.
        constraints: Vec<Constraint>,
    },
}

/// Writes zeros over a passphrase. By hand also so that who holds a request lets it go by one call.
impl Drop for Request {
    fn drop(self) {
        match self {
            Request::Lock(passphrase) | Request::Unlock(passphrase) => {
                passphrase.erase();
            }
            Request::RequestIdentities
            | Request::SignRequest(_)
            | Request::AddIdentity(_)
            | Request::RemoveIdentity(_)
            | Request::RemoveAllIdentities
            | Request::AddIdentityConstrained {
                addition: _,
                constraints: _,
            } => {}
        }
    }
}

/// A length of four bytes, the number of the request in one byte, and what it holds.
///
/// Fails with `Length` where a stated length passes what is left, unless memory ran out for a value
/// before it, with `TrailingData` where bytes of the frame are left over, with `FormatEncoding` for
/// the number of no request, and with the errors of what it holds. Such a length allocates nothing.
/// Constraints go up to the end of the frame, so bytes after them are read as one more.
#[tactic(auto, using(crate::proofs::Lawful::request_lawful))]
impl Decode for Request {
    type Error = Error;

    ghost Meaning = { model.Request };

    ghost means = { request_of };

    ghost format = { request_format };

    fn lawful() {}

    fn decode<R: Reader>(alloc: Global, reader: &mut R) -> Result<Request> {
        decode_frame(alloc, reader)
    }
}

/// Fails with `Length` where a frame can't hold the request, or a string in it is too long.
impl Encode for Request {
    ghost normal = { λ r. box (request r) };

    ghost max_len = { 2 ^ 32 + 3 };

    fn encoded_len(&self) -> encoding::Result<usize> {
        frame_len(self)
    }

    fn encode<W: Writer>(&self, writer: &mut W) -> encoding::Result<()> {
        encode_frame(self, writer)
    }
}

/// What is added is no encrypted pair, and names are UTF-8.
#[tactic(auto, using(crate::proofs::Requests::request_normal))]
impl NormalForm for Request {
    ghost IsWellFormed = { IsWellFormed };

    fn lawful_normal_form() {}
}

impl Framed for Request {
    type Kind = RequestKind;

    ghost Meaning = { model.Request };

    ghost means = { request_of };

    ghost body = { body };

    ghost message = { request };

    fn lawful_bodies() {}

    fn body_from<R: Reader>(alloc: Global, reader: &mut R, kind: RequestKind) -> Result<Request> {
        match kind {
            RequestKind::RequestIdentities => Ok(Request::RequestIdentities),
            RequestKind::SignRequest => {
                let request = SignRequest::decode(alloc, reader)?;
                Ok(Request::SignRequest(request))
            }
            RequestKind::AddIdentity => {
                let addition = Addition::decode(alloc, reader)?;
                Ok(Request::AddIdentity(addition))
            }
            RequestKind::RemoveIdentity => {
                let Wide(key) = Wide::<Bytes>::decode(alloc, reader)?;
                Ok(Request::RemoveIdentity(key))
            }
            RequestKind::RemoveAllIdentities => Ok(Request::RemoveAllIdentities),
            RequestKind::Lock => {
                let Wide(passphrase) = Wide::<Bytes>::decode(alloc, reader)?;
                Ok(Request::Lock(passphrase))
            }
            RequestKind::Unlock => {
                let Wide(passphrase) = Wide::<Bytes>::decode(alloc, reader)?;
                Ok(Request::Unlock(passphrase))
            }
            RequestKind::AddIdentityConstrained => constrained_from(alloc, reader),
        }
    }

    #[tactic(auto, using(ssh_key::proofs::Writing::measuring_leaves))]
    fn message_len(&self) -> encoding::Result<u32> {
        match self {
            Request::RequestIdentities | Request::RemoveAllIdentities => Ok(1),
            Request::SignRequest(request) => message_len(&SIGN_REQUEST, request),
            Request::AddIdentity(addition) => message_len(&ADD_IDENTITY, addition),
            Request::RemoveIdentity(key) => message_len(&REMOVE_IDENTITY, key),
            Request::Lock(passphrase) => message_len(&LOCK, passphrase),
            Request::Unlock(passphrase) => message_len(&UNLOCK, passphrase),
            Request::AddIdentityConstrained {
                addition,
                constraints,
            } => constrained_len(addition, constraints),
        }
    }

    fn encode_message<W: Writer>(&self, writer: &mut W) -> encoding::Result<()> {
        match self {
            Request::RequestIdentities => REQUEST_IDENTITIES.encode(writer),
            Request::SignRequest(request) => encode_both(&SIGN_REQUEST, request, writer),
            Request::AddIdentity(addition) => encode_both(&ADD_IDENTITY, addition, writer),
            Request::RemoveIdentity(key) => encode_both(&REMOVE_IDENTITY, key, writer),
            Request::RemoveAllIdentities => REMOVE_ALL_IDENTITIES.encode(writer),
            Request::Lock(passphrase) => encode_both(&LOCK, passphrase, writer),
            Request::Unlock(passphrase) => encode_both(&UNLOCK, passphrase, writer),
            Request::AddIdentityConstrained {
                addition,
                constraints,
            } => encode_constrained(addition, constraints, writer),
        }
    }
}
