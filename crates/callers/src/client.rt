//! Asks a signing key in an agent.

use crate::messages::shown_signature;
use crate::verified::Told;
use crate::words::{NO_LINE, bytes, number};
use agent::{Agent, AgentKey};
use ssh_key::public::KeyData;
use ssh_key::{Error, PublicKey, Result, Signature, SigningKey};
use std::alloc::Global;

/// An agent that gives one answer, which another gave before, and only to the request that it was
/// given for.
#[derive(Drop)]
struct Recorded {
    request: Vec<u8>,
    answer: Vec<u8>,
}

impl Agent for Recorded {
    ghost answers = { λ _ _ _. Unit {0} };

    ghost permits = { λ _ _. Unit {0} };

    fn ask(&self, _alloc: Global, request: &[u8]) -> Result<Vec<u8>> {
        if self.request.as_slice() != request {
            return Err(Error::Crypto);
        }
        Ok(self.answer.clone()?)
    }
}

/// The signature that the key gives, or why it gives none: the line of the key, the flags, and the
/// message, the request and the answer.
pub(crate) fn answer(alloc: Global, words: &[&str], told: &Told) -> Result<String> {
    let [key, flags, message, request, answer] = words else {
        return Err(NO_LINE);
    };
    let agent = Recorded {
        request: bytes(alloc, request)?,
        answer: bytes(alloc, answer)?,
    };
    let message = bytes(alloc, message)?;
    let flags = flags_of(flags)?;
    let signature = signature(alloc, key_of(alloc, key)?, flags, &message, &agent, told)?;
    shown_signature(alloc, &signature)
}

fn flags_of(digits: &str) -> Result<u32> {
    match u32::try_from(number(digits)?) {
        Ok(flags) => Ok(flags),
        Err(_) => Err(NO_LINE),
    }
}

fn key_of(alloc: Global, line: &str) -> Result<KeyData> {
    PublicKey::from_openssh(alloc, line)?
        .key_data()
        .try_clone(alloc)
}

/// The signature of the message by that key.
fn signature(
    alloc: Global,
    key: KeyData,
    flags: u32,
    message: &[u8],
    agent: &Recorded,
    told: &Told,
) -> Result<Signature> {
    let key = AgentKey {
        key,
        flags,
        agent,
        verifier: told,
    };
    key.try_sign(alloc, message)
}
