//! A signer that counts how often it is asked.

ghost use Rattle.std.specs.Prelude.{◌≡◌};
ghost use Rattle.sshkey_base.specs.declared.error.Error.TheVariants as wide;

use super::RefuseAll;
use sshkey_base::{Error, Result};
use sshkey_keys::{KeyData, Signature, SigningKey};
use std::alloc::Global;
use std::cell::Cell;

/// A signer that signs nothing, as a device that is not there: every message fails with `Crypto`.
/// It counts how often it is asked.
#[derive(Drop)]
pub struct Tally {
    key: KeyData,
    raw: RefuseAll,
    asked: Cell<u32>,
}

impl Tally {
    /// The signer with that public key, which nobody has asked yet.
    pub fn new(key: KeyData) -> Tally
        ensures { result.key ≡ key }
    {
        Tally {
            key,
            raw: RefuseAll,
            asked: Cell::new(0),
        }
    }

    /// How often it was asked. No contract can say what a cell holds, so tests say it.
    pub fn asked(&self) -> u32 {
        self.asked.get()
    }
}

impl SigningKey for Tally {
    type Raw = RefuseAll;

    ghost raw_of = { λ s. s.raw };

    ghost public_of = { λ s. s.key };

    ghost refuses = { λ _ _ e. e ≡ wide.Crypto };

    ghost permits = { λ _ _. Unit {0} };

    fn raw(&self) -> &RefuseAll {
        &self.raw
    }

    fn public_key(&self) -> &KeyData {
        &self.key
    }

    /// `Crypto`, whatever the message.
    fn try_sign(&self, _: Global, _: &[u8]) -> Result<Signature> {
        self.asked.set(self.asked.get().saturating_add(1));
        Err(Error::Crypto)
    }
}
