//! A key that an agent holds.

ghost use Rattle.std.specs.Prelude.{◌+◌, ◌*◌, ◌^◌};
ghost use Rattle.agent.specs.Records as model;
ghost use Rattle.agent.specs.Records.{identity, identity_format, identity_of};

use ssh_key::encoding::{
    Bytes, Decode, Encode, Error, NormalForm, Reader, Result, Writer, both_len, encode_both,
};
use ssh_key::terms::Then;
use std::alloc::Global;

/// A key of the answer to `SSH_AGENTC_REQUEST_IDENTITIES` (draft-miller-ssh-agent, section 4.4).
#[derive(Drop)]
pub struct Identity {
    /// The blob of the key or of its certificate: `KeyOrCertificate::from_bytes` reads either. It
    /// is kept as bytes, since a key of a kind that nobody knows here is no fault of the answer.
    pub key: Bytes,
    /// What the user calls it. It need not be UTF-8: OpenSSH lists a key whatever its comment is.
    pub comment: Bytes,
}

/// Two strings.
#[tactic(auto, using(crate::proofs::Lawful::identity_lawful, ssh_key::proofs::Mapped::mapped, ssh_key::proofs::Lawful::checked_read))]
impl Decode for Identity {
    type Error = Error;

    ghost Meaning = { model.Identity };

    ghost means = { identity_of };

    ghost format = { identity_format };

    fn lawful() {}

    fn decode<R: Reader>(alloc: Global, reader: &mut R) -> Result<Identity> {
        let Then(key, comment) = Then::<Bytes, Bytes>::decode(alloc, reader)?;
        Ok(Identity { key, comment })
    }
}

impl Encode for Identity {
    ghost normal = { λ i. identity (identity_of i) };

    ghost max_len = { 2 * (2 ^ 32 + 3) };

    fn encoded_len(&self) -> Result<usize> {
        both_len(&self.key, &self.comment)
    }

    fn encode<W: Writer>(&self, writer: &mut W) -> Result<()> {
        encode_both(&self.key, &self.comment, writer)
    }
}

#[tactic(auto, using(crate::proofs::Records::identity_normal))]
impl NormalForm for Identity {
    ghost IsWellFormed = { λ _. Unit {0} };

    fn lawful_normal_form() {}
}
