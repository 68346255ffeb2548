//! What the caller's verification said.

ghost use Rattle.std.specs.Prelude.{◌≡◌};
ghost use Rattle.sshkey_calls.specs.Validations.{is_yes_number};

use sshkey_base::Algorithm;
use sshkey_keys::{KeyData, RawVerifier};
use std::alloc::AllocError;

/// What the caller's verification said about the one question that it was asked.
#[derive(Clone, Copy, Debug)]
pub struct GivenAnswer {
    /// It is a signature.
    pub is_yes: bool,
}

impl GivenAnswer {
    /// What the number says: yes if it is 1, and else no.
    pub fn of(is_verified: u32) -> GivenAnswer
        ensures { result.is_yes ≡ is_yes_number is_verified }
    {
        GivenAnswer {
            is_yes: is_verified == 1,
        }
    }
}

impl RawVerifier for GivenAnswer {
    ghost accepts = { λ verification _. verification.is_yes };

    fn verify(
        &self,
        _: &Algorithm,
        _: &KeyData,
        _: &[u8],
        _: &[u8],
    ) -> std::result::Result<bool, AllocError> {
        Ok(self.is_yes)
    }
}
