//! A signer outside of this program: an agent, a device or another process.

ghost use Rattle.std.specs.Prelude.{◌≡◌, ◌⊎◌};
ghost use Rattle.ssh_key.specs.types.Error.TheVariants.{Crypto, Memory};

use crate::verified::Told;
use ssh_key::public::KeyData;
use ssh_key::{Error, Result, Signature, SigningKey};
use std::alloc::Global;

/// Has those signatures that the lines before told of. It knows no private key, so it asks
/// `KeyData::verify` about what it was given before it hands it on.
pub(crate) struct Outside<'a> {
    /// The public key.
    pub key: KeyData,
    /// What was told.
    pub told: &'a Told,
}

impl Drop for Outside<'_> {
    fn drop(self) {
        let Outside { key: _, told: _ } = self;
    }
}

impl SigningKey for Outside<'_> {
    type Raw = Told;

    ghost raw_of = { λ s. s.told.now };

    ghost public_of = { λ s. s.key };

    ghost refuses = { λ _ _ e. (e ≡ Memory) ⊎ (e ≡ Crypto) };

    ghost permits = { λ _ _. Unit {0} };

    fn raw(&self) -> &Told {
        self.told
    }

    fn public_key(&self) -> &KeyData {
        &self.key
    }

    fn try_sign(&self, alloc: Global, message: &[u8]) -> Result<Signature> {
        let signature = match self.told.signature_of(alloc, message) {
            Ok(Some(signature)) => signature,
            Err(Error::Memory) => return Err(Error::Memory),
            _ => return Err(Error::Crypto),
        };
        match self.key.verify(alloc, message, &signature, self.told) {
            Ok(()) => Ok(signature),
            Err(Error::Memory) => Err(Error::Memory),
            Err(_) => Err(Error::Crypto),
        }
    }
}
