//! What an agent is asked to sign.

ghost use Rattle.std.specs.Prelude.{◌+◌, ◌*◌, ◌^◌};
ghost use Rattle.agent.specs.Records as model;
ghost use Rattle.agent.specs.Records.{sign_request, sign_request_format, sign_request_of};

use ssh_key::encoding::{Bytes, Decode, Encode, NormalForm, Reader, Writer, both_len, encode_both};
use ssh_key::terms::{Then, Wide};
use ssh_key::{Error, Result, encoding};
use std::alloc::Global;

/// What is to be signed, and by which key (draft-miller-ssh-agent, section 4.5).
#[derive(Drop)]
pub struct SignRequest {
    /// The blob of the key.
    pub key: Bytes,
    /// What is to be signed.
    pub message: Bytes,
    /// Which hash an RSA key takes: 2 asks for SHA-256, 4 for SHA-512.
    pub flags: u32,
}

/// Two strings and a number.
#[tactic(auto, using(crate::proofs::Lawful::sign_request_lawful, ssh_key::proofs::Mapped::mapped, ssh_key::proofs::Lawful::checked_read))]
impl Decode for SignRequest {
    type Error = Error;

    ghost Meaning = { model.SignRequest };

    ghost means = { sign_request_of };

    ghost format = { sign_request_format };

    fn lawful() {}

    fn decode<R: Reader>(alloc: Global, reader: &mut R) -> Result<SignRequest> {
        let Wide(Then(key, Then(message, flags))) = Wide::<Then<Bytes, Then<Bytes, u32>>>::decode(
            alloc, reader,
        )?;
        Ok(SignRequest {
            key,
            message,
            flags,
        })
    }
}

#[tactic(auto, using(ssh_key::proofs::Writing::writing, ssh_key::proofs::Writing::measuring, ssh_key::proofs::Writing::measuring_leaves))]
impl Encode for SignRequest {
    ghost normal = { λ r. sign_request (sign_request_of r) };

    ghost max_len = { 2 * (2 ^ 32 + 3) + 4 };

    fn encoded_len(&self) -> encoding::Result<usize> {
        Ok(both_len(&self.key, &self.message)? + 4)
    }

    fn encode<W: Writer>(&self, writer: &mut W) -> encoding::Result<()> {
        self.key.encode(writer)?;
        encode_both(&self.message, &self.flags, writer)
    }
}

#[tactic(auto, using(crate::proofs::Records::sign_request_normal))]
impl NormalForm for SignRequest {
    ghost IsWellFormed = { λ _. Unit {0} };

    fn lawful_normal_form() {}
}
