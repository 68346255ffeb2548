//! A key pair that an agent is given.

ghost use Rattle.std.specs.Prelude.{◌≡◌, ◌+◌, ◌^◌, false};
ghost use Rattle.ssh_key.specs.pairs.Keypairs.{is_encrypted};

use ssh_key::encoding::{Bytes, Decode, Encode, NormalForm, Reader, Writer, both_len, encode_both};
use ssh_key::private::KeypairData;
use ssh_key::terms::{Then, Wide};
use ssh_key::{Error, Result, encoding};
use std::alloc::Global;

/// A key pair and what the user calls it (draft-miller-ssh-agent, section 4.2). The pair is never
/// an encrypted one.
pub struct Addition {
    keypair: KeypairData,
    /// What the user calls it. It need not be UTF-8.
    pub comment: Bytes,
    pub ghost form: { is_encrypted keypair ≡ false },
}

impl Drop for Addition {
    fn drop(self) {
        let Addition {
            keypair: _,
            comment: _,
        } = self;
    }
}

impl Addition {
    ghost use Rattle.agent.specs.Records.{MakesAddition, pair_in};

    /// The pair and what the user calls it. Fails with `Encrypted` exactly for an encrypted pair:
    /// an agent is given a pair, and no ciphertext.
    pub fn new(keypair: KeypairData, comment: Bytes) -> Result<Addition>
        ensures { MakesAddition keypair comment result }
    {
        if keypair.is_encrypted() {
            return Err(Error::Encrypted);
        }
        Ok(Addition { keypair, comment })
    }

    /// The pair.
    pub fn keypair(&self) -> &KeypairData
        ensures value { result.now ≡ pair_in self.now }
        ensures form { is_encrypted result.now ≡ false }
    {
        &self.keypair
    }
}

/// The pair after its name, and a string. An encrypted pair is never read.
///
/// What ssh-add(1) sends of a key with a certificate is no pair of the key. Where two strings stand
/// after the certificate's name, as of an ECDSA key, it is read as a pair under that name, so an
/// agent answers `Response::Failure` where `Algorithm::from_fixed_certificate_name` knows the name.
/// Where there are more, bytes are left over, and reading the request fails.
#[tactic(auto, using(crate::proofs::Lawful::addition_lawful, ssh_key::proofs::Mapped::mapped, ssh_key::proofs::Lawful::checked_read))]
impl Decode for Addition {
    ghost use Rattle.agent.specs.Records as model;
    ghost use Rattle.agent.specs.Records.{addition_format, addition_of};

    type Error = Error;

    ghost Meaning = { model.Addition };

    ghost means = { addition_of };

    ghost format = { addition_format };

    fn lawful() {}

    fn decode<R: Reader>(alloc: Global, reader: &mut R) -> Result<Addition> {
        let Then(keypair, Wide(comment)) = Then::<KeypairData, Wide<Bytes>>::decode(alloc, reader)?;
        Ok(Addition { keypair, comment })
    }
}

impl Encode for Addition {
    ghost use Rattle.agent.specs.Records.{addition};

    ghost normal = { addition };

    ghost max_len = { 2 ^ 63 + 2 ^ 32 + 3 };

    fn encoded_len(&self) -> encoding::Result<usize> {
        both_len(&self.keypair, &self.comment)
    }

    fn encode<W: Writer>(&self, writer: &mut W) -> encoding::Result<()> {
        encode_both(&self.keypair, &self.comment, writer)
    }
}

/// The pair is one that its format has.
#[tactic(auto, using(crate::proofs::Records::addition_normal))]
impl NormalForm for Addition {
    ghost use Rattle.agent.specs.Records.{IsWellFormedAddition};

    ghost IsWellFormed = { IsWellFormedAddition };

    fn lawful_normal_form() {}
}
