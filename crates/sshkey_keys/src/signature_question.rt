//! The question about a signature, with the memory that it takes.

ghost use Rattle.std.specs.Cow.{cow_slice_items};
ghost use Rattle.std.specs.Prelude.{◌≡◌, IfErr, IfOk, option_map};
ghost use Rattle.sshkey_model.specs.Verification.{is_yes, question};
ghost use Rattle.sshkey_keys.specs.Asked.{RunsOut};
ghost use Rattle.sshkey_keys.specs.Keys.{key_of};
ghost use Rattle.sshkey_keys.specs.Questions.{asks, question_of};
ghost use Rattle.sshkey_keys.specs.Signatures.{signature_of};

use crate::key_data::KeyData;
use crate::question::Question;
use crate::raw_verifier::RawVerifier;
use crate::signature::Signature;
use std::alloc::AllocError;
use std::borrow::CowSlice;

/// What a verifier is asked about a signature, with the memory that this takes: the key, the
/// message and the signature, which nobody has verified.
///
/// Whoever holds it asks a verifier by `is_accepted`, or takes the parts to one in another process,
/// on a device or later, by `question`.
#[derive(Drop)]
pub struct SignatureQuestion<'a> {
    key: KeyData,
    message: CowSlice<'a, u8>,
    signature: Signature,
}

impl<'a> SignatureQuestion<'a> {
    /// What a verifier is asked about the signature of the message under the key. Does not
    /// allocate.
    pub fn new(
        key: KeyData,
        message: CowSlice<'a, u8>,
        signature: Signature,
    ) -> SignatureQuestion<'a>
        ensures { asks result
            ≡ question (key_of key) (cow_slice_items message.entry) (signature_of signature) }
    {
        SignatureQuestion {
            key,
            message,
            signature,
        }
    }
}

impl SignatureQuestion<'_> {
    /// The question, or `None` if the key and the signature's algorithm do not go together: then no
    /// verifier is asked, and the signature counts for nothing. `KeyData::question` gives it; a
    /// security key's is already the one about the plain key within. Does not allocate.
    pub fn question(&self) -> Option<Question<'_>>
        ensures { option_map question_of result ≡ asks self.now }
    {
        self.key.question(&self.message, &self.signature)
    }

    /// Whether the verifier is asked that question, and returns true. Does not allocate.
    ///
    /// Fails only if the verifier runs out of memory.
    pub fn is_accepted<V: RawVerifier>(&self, verifier: &V) -> std::result::Result<bool, AllocError>
        ensures answer { IfOk result
            (λ yes. yes ≡ is_yes (V.accepts verifier.now) (asks self.now)) }
        ensures memory { IfErr result (λ _. RunsOut (V.runs_out verifier.now) (asks self.now)) }
    {
        self.key.accepts(&self.message, &self.signature, verifier)
    }
}
