//! The dispatch of signatures: which question a verifier is asked, by the kind of the key and the
//! signature's algorithm, and the question as a value.

ghost use Rattle.std.specs.Prelude.{◌≡◌, ◌≤◌, ℕ, List, length, is_some, option_map, Some};
ghost use Rattle.sshkey_model.specs.Names.{SkEcdsa, SkEd25519 as AlgorithmSkEd25519};
ghost use Rattle.sshkey_model.specs.Verification.{question, question_under};
ghost use Rattle.sshkey_base.specs.Names.{algorithm_of};
ghost use Rattle.sshkey_kinds.specs.Kinds.{sk_ecdsa_of, sk_ed25519_of};
ghost use Rattle.sshkey_keys.specs.Keys.{key_of};
ghost use Rattle.sshkey_keys.specs.Questions.{question_of};
ghost use Rattle.sshkey_keys.specs.Signatures.{signature_of};

use crate::key_data::KeyData;
use crate::security_key::security_key_message;
use crate::signature::{Signature, split_trailer};
use sshkey_base::{Algorithm, EcdsaCurve};
use sshkey_kinds::{EcdsaPublicKey, SkEcdsaSha2NistP256, SkEd25519};

/// What a verifier is asked about a signature: whether these bytes are a signature of the message
/// under the key by the algorithm. `KeyData::question` gives it.
///
/// Whoever verifies elsewhere, in another process, on a device or later, takes the four parts from
/// here: the signature is valid exactly if verification of them succeeds. A security key's question
/// is already the one about the plain key within and what the device signed.
#[derive(Drop)]
pub struct Question<'a>(Contents<'a>);

/// Whom a question is about: the key and the message themselves, or for a security key the plain
/// key within and what the device signed.
#[derive(Drop)]
enum Contents<'a> {
    Itself(&'a Algorithm, &'a KeyData, &'a [u8], &'a [u8]),
    Within(Algorithm, KeyData, [u8; 69], &'a [u8]),
}

impl<'a> Question<'a> {
    /// The algorithm to verify by: RSA with its hash, ECDSA with its curve.
    pub fn algorithm(&self) -> &Algorithm
        ensures { algorithm_of result.now ≡ (question_of self.now).algorithm }
    {
        match &self.0 {
            Contents::Itself(algorithm, _, _, _) => algorithm,
            Contents::Within(algorithm, _, _, _) => algorithm,
        }
    }

    /// The key: one of DSA, ECDSA, Ed25519 or RSA.
    pub fn key(&self) -> &KeyData
        ensures { key_of result.now ≡ (question_of self.now).key }
    {
        match &self.0 {
            Contents::Itself(_, key, _, _) => key,
            Contents::Within(_, key, _, _) => key,
        }
    }

    /// The message to verify the signature of. For a security key it has 69 bytes (PROTOCOL.u2f).
    pub fn message(&self) -> &[u8]
        ensures { result.now ≡ (question_of self.now).message }
    {
        match &self.0 {
            Contents::Itself(_, _, message, _) => message,
            Contents::Within(_, _, message, _) => message,
        }
    }

    /// The bytes of the signature, in the form that the algorithm has (RFC 4253, section 6.6;
    /// RFC 5656, section 3.1.2; RFC 8709, section 6).
    pub fn signature(&self) -> &[u8]
        ensures { result.now ≡ (question_of self.now).blob }
    {
        match &self.0 {
            Contents::Itself(_, _, _, signature) => signature,
            Contents::Within(_, _, _, signature) => signature,
        }
    }
}

impl KeyData {
    /// What a verifier is asked about a signature of the message under this key, or `None` if the
    /// key and the signature's algorithm do not go together. Then no verifier is asked, and the
    /// signature counts for nothing. `verify` asks its verifier just this. Does not allocate.
    ///
    /// A DSA, an Ed25519 or an RSA key goes together with its own algorithm, RSA with a hash, and
    /// an ECDSA key with that of its curve. The question is about the key, the message and the
    /// signature's bytes. A security key goes together with its own algorithm, and the question is
    /// about the plain key within. The message is the SHA-256 digest of the application, the flags,
    /// the counter and the digest of the message (PROTOCOL.u2f), and the signature is what comes
    /// before flags and counter.
    pub fn question<'a>(
        &'a self,
        message: &'a [u8],
        signature: &'a Signature,
    ) -> Option<Question<'a>>
        ensures { option_map question_of result
            ≡ question (key_of self.now) message.now (signature_of signature.now) }
    {
        if !self.is_asked_about(signature) {
            return None;
        }
        Some(match self {
            KeyData::SkEcdsaSha2NistP256(key) => within_sk_ecdsa(key, message, signature),
            KeyData::SkEd25519(key) => within_sk_ed25519(key, message, signature),
            KeyData::Dsa(_)
            | KeyData::Ecdsa(_)
            | KeyData::Ed25519(_)
            | KeyData::Rsa(_)
            | KeyData::Other(_) => Question(Contents::Itself(
                signature.algorithm(),
                self,
                message,
                signature.as_bytes(),
            )),
        })
    }

    /// Whether the verifier is asked about the signature, whatever the message.
    fn is_asked_about(&self, signature: &Signature) -> bool
        ensures { (message : List ℕ) →
            result ≡ is_some (question (key_of self.now) message (signature_of signature.now)) }
    {
        let algorithm = signature.algorithm();
        match self {
            KeyData::Dsa(_) => matches!(algorithm, Algorithm::Dsa),
            KeyData::Ecdsa(key) => {
                matches!(algorithm, Algorithm::Ecdsa { curve } if key.is_on(*curve))
            },
            KeyData::Ed25519(_) => matches!(algorithm, Algorithm::Ed25519),
            KeyData::Rsa(_) => matches!(algorithm, Algorithm::Rsa { hash: Some(_) }),
            KeyData::SkEcdsaSha2NistP256(_) => matches!(algorithm, Algorithm::SkEcdsaSha2NistP256),
            KeyData::SkEd25519(_) => matches!(algorithm, Algorithm::SkEd25519),
            KeyData::Other(_) => false,
        }
    }
}

/// The question about the P-256 key that a security key holds.
fn within_sk_ecdsa<'a>(
    key: &SkEcdsaSha2NistP256,
    message: &[u8],
    signature: &'a Signature,
) -> Question<'a>
    ensures { 5 ≤ length (signature_of signature.now).blob → Some (question_of result)
        ≡ question_under SkEcdsa (sk_ecdsa_of key.now) message.now (signature_of signature.now) }
{
    let curve = EcdsaCurve::NistP256;
    let blob = signature.as_bytes();
    let signed = security_key_message(key.application(), blob, message);
    let (string, _) = split_trailer(blob);
    let plain = KeyData::Ecdsa(EcdsaPublicKey::NistP256(*key.ec_point()));
    Question(Contents::Within(Algorithm::Ecdsa { curve }, plain, signed, string))
}

/// The question about the Ed25519 key that a security key holds.
fn within_sk_ed25519<'a>(key: &SkEd25519, message: &[u8], signature: &'a Signature) -> Question<'a>
    ensures { 5 ≤ length (signature_of signature.now).blob → Some (question_of result)
        ≡ question_under AlgorithmSkEd25519 (sk_ed25519_of key.now) message.now
        (signature_of signature.now) }
{
    let blob = signature.as_bytes();
    let signed = security_key_message(key.application(), blob, message);
    let (string, _) = split_trailer(blob);
    let plain = KeyData::Ed25519(*key.public_key());
    Question(Contents::Within(Algorithm::Ed25519, plain, signed, string))
}
