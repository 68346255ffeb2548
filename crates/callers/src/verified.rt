//! A verifier without mathematics: it is told which signatures another program has verified.

ghost use Rattle.std.specs.Prelude.{◌≡◌};
ghost use Rattle.std.specs.List.{list_any};
ghost use Rattle.ssh_key.specs.base.Names.{algorithm_of};
ghost use Rattle.ssh_key.specs.keys.Keys.{key_of};
ghost use Rattle.callers.specs.Answers.{is_about, same_key};

use crate::words::{NO_LINE, bytes};
use ssh_key::public::KeyData;
use ssh_key::{Algorithm, PublicKey, RawVerifier, Result, Signature, SignatureQuestion};
use std::alloc::{AllocError, Global};
use std::cell::Cell;

/// A signature that another program has verified.
#[derive(Debug, Drop)]
pub(crate) struct Verified {
    /// By which algorithm.
    pub algorithm: Algorithm,
    /// Under which key.
    pub key: KeyData,
    /// Of what.
    pub message: Vec<u8>,
    /// Its bytes, without the name of the algorithm.
    pub signature: Vec<u8>,
}

/// Accepts the signatures that it was told of, and no others. It counts how often it is asked.
#[derive(Drop)]
pub(crate) struct Told {
    verified: Vec<Verified>,
    asked: Cell<u64>,
}

impl Told {
    /// One that was told of none. Takes no memory.
    pub(crate) fn new(alloc: Global) -> Told {
        Told {
            verified: Vec::new(alloc),
            asked: Cell::new(0),
        }
    }

    /// Tells of one more. Refused only when out of memory.
    pub(crate) fn add(&mut self, verified: Verified) -> Result<()> {
        Ok(self.verified.push(verified)?)
    }

    /// One that was told of the signature in the word, its parts with commas between, or by `-` of
    /// none.
    pub(crate) fn read(alloc: Global, word: &str) -> Result<Told> {
        let mut told = Told::new(alloc);
        if word != "-" {
            let words = word.split(',').collect::<Vec<&str>>(alloc)?;
            told.add(read_verified(alloc, words.as_slice())?)?;
        }
        Ok(told)
    }

    /// Whether there is a question, about a signature that it was told of.
    pub(crate) fn accepts(&self, question: Option<&SignatureQuestion<'static>>) -> bool {
        match question {
            Some(question) => matches!(question.is_accepted(self), Ok(true)),
            None => false,
        }
    }

    /// How often it was asked.
    pub(crate) fn asked(&self) -> u64 {
        self.asked.get()
    }

    /// The signature of that message that it was told of, if there is one.
    pub(crate) fn signature_of(&self, alloc: Global, message: &[u8]) -> Result<Option<Signature>> {
        for verified in &self.verified {
            if verified.message.as_slice() == message {
                let signature = verified.signature.clone()?;
                return Ok(Some(Signature::new(verified.algorithm.try_clone(alloc)?, signature)?));
            }
        }
        Ok(None)
    }
}

impl RawVerifier for Told {
    ghost accepts = { λ told q. list_any (λ v. is_about v q) told.verified.items };

    fn verify(
        &self,
        algorithm: &Algorithm,
        key: &KeyData,
        message: &[u8],
        signature: &[u8],
    ) -> std::result::Result<bool, AllocError> {
        self.asked.set(self.asked.get().saturating_add(1));
        Ok(
            self.verified
                .iter()
                .any(|it| it.is_about(algorithm, key, message, signature)),
        )
    }
}

impl Verified {
    fn is_about(
        &self,
        algorithm: &Algorithm,
        key: &KeyData,
        message: &[u8],
        signature: &[u8],
    ) -> bool
        ensures { result ≡ is_about self.now (record {
          algorithm = algorithm_of algorithm.now;
          key = key_of key.now;
          message = message.now;
          blob = signature.now;
        }) }
    {
        self.algorithm.as_str() == algorithm.as_str()
            && is_same(&self.key, key)
            && self.message.as_slice() == message
            && self.signature.as_slice() == signature
    }
}

/// Whether both are the same Ed25519, ECDSA or RSA key.
fn is_same(key: &KeyData, other: &KeyData) -> bool
    ensures { result ≡ same_key (key_of key.now) (key_of other.now) }
{
    match key {
        KeyData::Ecdsa(key) => matches!(
            other,
            KeyData::Ecdsa(other)
                if key.is_on(other.curve()) && key.as_sec1_bytes() == other.as_sec1_bytes()
        ),
        KeyData::Ed25519(key) => matches!(other, KeyData::Ed25519(other) if key.0 == other.0),
        KeyData::Rsa(key) => matches!(
            other,
            KeyData::Rsa(other)
                if key.e.as_bytes() == other.e.as_bytes() && key.n.as_bytes() == other.n.as_bytes()
        ),
        KeyData::Dsa(_)
        | KeyData::SkEcdsaSha2NistP256(_)
        | KeyData::SkEd25519(_)
        | KeyData::Other(_) => false,
    }
}

/// What a line or a word tells: the name of the algorithm, the line of the key, and message and signature in
/// hexadecimal digits.
pub(crate) fn read_verified(alloc: Global, words: &[&str]) -> Result<Verified> {
    let [algorithm, key, message, signature] = words else {
        return Err(NO_LINE);
    };
    let key = PublicKey::from_openssh(alloc, key)?;
    Ok(Verified {
        algorithm: Algorithm::new(alloc, algorithm)?,
        key: key.key_data().try_clone(alloc)?,
        message: bytes(alloc, message)?,
        signature: bytes(alloc, signature)?,
    })
}
