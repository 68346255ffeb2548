//! Who makes signatures: the caller.

ghost use Rattle.std.specs.Prelude.{◌≡◌, IfOk, IfErr, List, ℕ};
ghost use Rattle.sshkey_model.specs.Verification.{IsAccepted};
ghost use Rattle.sshkey_base.specs.declared.error.Error.{Error};
ghost use Rattle.sshkey_keys.specs.declared.key_data.KeyData.{KeyData};
ghost use Rattle.sshkey_keys.specs.Keys.{key_of};
ghost use Rattle.sshkey_keys.specs.Signatures.{signature_of};

use crate::key_data::KeyData;
use crate::raw_verifier::RawVerifier;
use crate::signature::Signature;
use sshkey_base::Result;
use std::alloc::Global;

/// A key that signs, and the verifier that its signatures are for.
pub trait SigningKey {
    /// The verifier that accepts its signatures.
    type Raw: RawVerifier;

    /// That verifier, a function of the signer's value.
    ghost raw_of: { Self → Self.Raw };

    /// The public key.
    ghost public_of: { Self → KeyData };

    /// For which messages it may refuse to sign, and with which error.
    ghost refuses: { Self → List ℕ → Error → Type 0 };

    /// Which messages it may be asked to sign: any, unless an implementation says otherwise.
    ghost permits: { Self → List ℕ → Type 0 } = { λ _ _. Unit {0} };

    /// The verifier that accepts its signatures.
    fn raw(&self) -> &Self::Raw
        ensures { result.now ≡ raw_of self.now };

    /// The public key.
    fn public_key(&self) -> &KeyData
        ensures { result.now ≡ public_of self.now };

    /// A signature of the message, which `KeyData::verify` accepts under the public key by `raw`.
    ///
    /// It may be asked only for a message that the signer permits. An error is one that the signer
    /// may refuse that message with.
    fn try_sign(&self, alloc: Global, message: &[u8]) -> Result<Signature>
        requires { permits self.now message.now }
        ensures accepted { IfOk result (λ g. IsAccepted (Self.Raw.accepts (raw_of self.now))
            (key_of (public_of self.now)) message.now (signature_of g)) }
        ensures refused { IfErr result (refuses self.now message.now) };
}
