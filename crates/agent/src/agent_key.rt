//! A signing key in an agent.

ghost use Rattle.std.specs.Prelude.{◌≡◌, ◌≢◌, ◌↔◌, ℕ, List, Result, IfErr, IfOk, IsTrue};
ghost use Rattle.ssh_key.specs.base.Names.{algorithm_of};
ghost use Rattle.ssh_key.specs.keys.Keys.{key_of};
ghost use Rattle.ssh_key.specs.keys.Signatures.{signature_of};
ghost use Rattle.ssh_key.specs.model.Parts.{flat, BoxesFit};
ghost use Rattle.ssh_key.specs.model.Verification.{IsAccepted};
ghost use Rattle.ssh_key.specs.types.Error.{Error};
ghost use Rattle.ssh_key.specs.types.Error.TheVariants.{Memory};
ghost use Rattle.agent.specs.Signing.{AgentRefuses, GetsSignature, IsAnswered, IsAskedFor, IsRefusalOf, ReadsAnswer, handed, signing_request};

use crate::{Request, Response, SignRequest};
use ssh_key::encoding::{Bytes, decode_whole, encode_vec};
use ssh_key::public::KeyData;
use ssh_key::{Algorithm, Error, HashAlg, RawVerifier, Result, Signature, SigningKey};
use std::alloc::Global;

/// An agent that can be asked: its socket, or what stands for it.
pub trait Agent {
    /// What it may answer to the bytes of a request, or fail with.
    ghost answers: { Self → List ℕ → Result (List ℕ) Error → Type 0 };

    /// Which bytes it may be sent.
    ghost permits: { Self → List ℕ → Type 0 };

    /// Sends the bytes of a request, and returns those of the answer, with its frame.
    fn ask(&self, alloc: Global, request: &[u8]) -> Result<Vec<u8>>
        requires { permits self.now request.now }
        ensures { answers self.now request.now (handed result) };
}

/// A key whose private half an agent holds.
///
/// The agent may answer anything, so `try_sign` asks `KeyData::verify` about the signature before
/// it returns it.
pub struct AgentKey<'a, A, V> {
    /// The public key.
    pub key: KeyData,
    /// The flags of the request: 2 asks an RSA key for SHA-256, 4 for SHA-512. With another number
    /// the agent chooses.
    pub flags: u32,
    /// The agent.
    pub agent: &'a A,
    /// The verifier that has to accept what the agent signs.
    pub verifier: &'a V,
}

impl<A, V> Drop for AgentKey<'_, A, V> {
    fn drop(self) {
        let AgentKey {
            key: _,
            flags: _,
            agent: _,
            verifier: _,
        } = self;
    }
}

impl<A: Agent, V: RawVerifier> AgentKey<'_, A, V> {
    /// The signature that the agent answers. Fails where it answers none.
    fn ask(&self, alloc: Global, message: &[u8]) -> Result<Signature>
        requires { A.permits self.now.agent.now
            (flat (signing_request (key_of self.now.key) self.now.flags message.now)) }
        ensures { GetsSignature (A.answers self.now.agent.now)
            (signing_request (key_of self.now.key) self.now.flags message.now) result }
    {
        let request = self.request_for(alloc, message)?;
        let answer = self.agent.ask(alloc, &request)?;
        signature_from(alloc, &answer)
    }

    /// The bytes of the request to sign the message. Fails where a string in it is too long.
    fn request_for(&self, alloc: Global, message: &[u8]) -> Result<Vec<u8>>
        ensures bytes { IfOk result (λ v.
            v.items ≡ flat (signing_request (key_of self.now.key) self.now.flags message.now)) }
        ensures refused { IfErr result (λ e. e ≢ Memory →
            BoxesFit (signing_request (key_of self.now.key) self.now.flags message.now) → ⊥) }
    {
        let key = Bytes::new(encode_vec(alloc, &self.key)?);
        let message = Bytes::from_slice(alloc, message)?;
        let flags = self.flags;
        let request = Request::SignRequest(SignRequest {
            key,
            message,
            flags,
        });
        Ok(encode_vec(alloc, &request)?)
    }
}

/// The signature of an answer. Fails with `Crypto` for an answer that is none.
fn signature_from(alloc: Global, answer: &[u8]) -> Result<Signature>
    ensures { ReadsAnswer answer.now result }
{
    match decode_whole::<Response, &[u8]>(alloc, answer)?.into_signature() {
        Some(signature) => Ok(signature),
        None => Err(Error::Crypto),
    }
}

/// Whether the signature is by the hash that flags of 2 or 4 ask an RSA key for.
fn is_asked_for(flags: u32, algorithm: &Algorithm) -> bool
    ensures { IsTrue result ↔ IsAskedFor flags (algorithm_of algorithm.now) }
{
    match flags {
        2 => !matches!(
            algorithm,
            Algorithm::Rsa {
                hash: Some(HashAlg::Sha512)
            }
        ),
        4 => !matches!(
            algorithm,
            Algorithm::Rsa {
                hash: Some(HashAlg::Sha256)
            }
        ),
        _ => true,
    }
}

/// `Memory` as it is, and `Crypto` for any other error.
fn refusal_of(error: Error) -> Error
    ensures { IsRefusalOf error result }
{
    match error {
        Error::Memory => Error::Memory,
        _ => Error::Crypto,
    }
}

impl<A: Agent, V: RawVerifier> SigningKey for AgentKey<'_, A, V> {
    type Raw = V;

    ghost raw_of = { λ s. s.verifier.now };

    ghost public_of = { λ s. s.key };

    ghost refuses = { λ s. AgentRefuses (A.answers s.agent.now) (V.accepts s.verifier.now)
        (key_of s.key) s.flags };

    ghost permits = { λ s message. A.permits s.agent.now
        (flat (signing_request (key_of s.key) s.flags message)) };

    fn raw(&self) -> &V {
        self.verifier
    }

    fn public_key(&self) -> &KeyData {
        &self.key
    }

    /// Asks the agent for a signature of the message, and returns it if it is by the hash that
    /// flags of 2 or 4 ask an RSA key for, and the verifier accepts it.
    ///
    /// Fails with `Crypto` where the agent answers no such one, or a string of the request is too
    /// long, and else only when out of memory.
    fn try_sign(&self, alloc: Global, message: &[u8]) -> Result<Signature>
        requires { A.permits self.now.agent.now
            (flat (signing_request (key_of self.now.key) self.now.flags message.now)) }
        ensures accepted { IfOk result (λ g. IsAccepted (V.accepts self.now.verifier.now)
            (key_of self.now.key) message.now (signature_of g)) }
        ensures refused { IfErr result (AgentRefuses (A.answers self.now.agent.now)
            (V.accepts self.now.verifier.now) (key_of self.now.key) self.now.flags message.now) }
        ensures answered { IfOk result (λ g. IsAnswered (A.answers self.now.agent.now)
            (signing_request (key_of self.now.key) self.now.flags message.now) (signature_of g)) }
        ensures hashed { IfOk result
            (λ g. IsAskedFor self.now.flags (signature_of g).algorithm) }
    {
        let signature = match self.ask(alloc, message) {
            Ok(signature) => signature,
            Err(error) => return Err(refusal_of(error)),
        };
        if !is_asked_for(self.flags, signature.algorithm()) {
            return Err(Error::Crypto);
        }
        match self.key.verify(alloc, message, &signature, self.verifier) {
            Ok(()) => Ok(signature),
            Err(error) => Err(refusal_of(error)),
        }
    }
}
