//! What has to be verified of an SSH signature.

ghost use Rattle.std.specs.Prelude.{◌≡◌, ◌≢◌, ◌↔◌, IfSome, IsTrue};
ghost use Rattle.sshkey_keys.specs.Keys.{key_of};
ghost use Rattle.sshkey_keys.specs.Questions.{question_of};
ghost use Rattle.sshkey_model.specs.Names.{Sha256};
ghost use Rattle.sshkey_model.specs.Verification.{question};
ghost use Rattle.sshkey_sshsig.specs.SshSignatures.{ssh_signature_of};
ghost use Rattle.sshkey_calls.specs.Fingerprints.{GivesDigestOf};
ghost use Rattle.sshkey_calls.specs.Signatures.{GivesQuestion, TellsDigestQuestion, TellsMessageQuestion, TellsSigner, FindsSshSignature};

use crate::digest::Sha256Digest;
use crate::number::{DONE, LENGTH, MEMORY, OTHER_NAMESPACE, UNSUPPORTED, error_status};
use crate::question::{Question, answer_with};
use sshkey_base::HashAlg;
use sshkey_keys::{KeyData, Question as Asked};
use sshkey_sshsig::SshSig;
use std::alloc::Global;

/// The SSH signature in that namespace that all the bytes spell, or the number to answer with.
pub fn find_signature(alloc: Global, signature: &[u8], namespace: &[u8]) -> Result<SshSig, u32>
    ensures { FindsSshSignature signature.now namespace.now result }
{
    match SshSig::from_bytes(alloc, signature) {
        Ok(read) => if is_in(&read, namespace) {
            Ok(read)
        } else {
            Err(OTHER_NAMESPACE)
        },
        Err(error) => Err(error_status(error)),
    }
}

/// Whether the signature is in the namespace.
fn is_in(signature: &SshSig, namespace: &[u8]) -> bool
    ensures { IsTrue result
        ↔ ((ssh_signature_of signature.now).namespace ≡ namespace.now) }
{
    signature.namespace().as_bytes() == namespace
}

/// Answers with the question that an SSH signature raises, as one of the message, and with the
/// fingerprint of its key.
pub fn ask(
    alloc: Global,
    read: &SshSig,
    message: &[u8],
    room: &mut [u8],
    answer: &mut Question,
    signer: &mut Sha256Digest,
) -> u32
    ensures { TellsMessageQuestion (ssh_signature_of read.now) message.now
        result answer.old answer.new room.old room.new signer.old signer.new }
{
    let Ok(signed) = read.signed_bytes(alloc, message) else {
        return MEMORY;
    };
    ask_about(alloc, read, &signed, room, answer, signer)
}

/// The same of the digest of the message. 13 where it has another length than the hash's.
pub fn ask_of_digest(
    alloc: Global,
    read: &SshSig,
    digest: &[u8],
    room: &mut [u8],
    answer: &mut Question,
    signer: &mut Sha256Digest,
) -> u32
    ensures { TellsDigestQuestion (ssh_signature_of read.now) digest.now
        result answer.old answer.new room.old room.new signer.old signer.new }
{
    if digest.len() != read.hash_alg().digest_size() {
        return LENGTH;
    }
    let Ok(signed) = read.signed_bytes_of_digest(alloc, digest) else {
        return MEMORY;
    };
    ask_about(alloc, read, &signed, room, answer, signer)
}

/// The same of what is signed in place of the message.
fn ask_about(
    alloc: Global,
    read: &SshSig,
    signed: &[u8],
    room: &mut [u8],
    answer: &mut Question,
    signer: &mut Sha256Digest,
) -> u32
    ensures { let f = ssh_signature_of read.now in
        TellsSigner f.key (question f.key signed.now f.signature)
        result answer.old answer.new room.old room.new signer.old signer.new }
{
    match read.public_key().question(signed, read.signature()) {
        Some(question) => {
            let Some(digest) = digest_of(alloc, read.public_key()) else {
                return MEMORY;
            };
            answer_by(alloc, &question, &digest, room, answer, signer)
        }
        None => UNSUPPORTED,
    }
}

/// The SHA-256 fingerprint of the key; `None` if memory ran out.
fn digest_of(alloc: Global, key: &KeyData) -> Option<[u8; 32]>
    ensures { IfSome result (GivesDigestOf Sha256 (key_of key.now)) }
{
    let Ok(fingerprint) = key.fingerprint(alloc, HashAlg::Sha256) else {
        return None;
    };
    fingerprint.sha256()
}

/// Answers with the question, and where it is done with the digest of who signed.
fn answer_by(
    alloc: Global,
    question: &Asked<'_>,
    digest: &[u8; 32],
    room: &mut [u8],
    answer: &mut Question,
    signer: &mut Sha256Digest,
) -> u32
    ensures raised { GivesQuestion (λ q. q ≡ question_of question.now)
        result answer.old answer.new room.old room.new }
    ensures signer { result ≡ 0 → signer.new.bytes ≡ digest.now }
    ensures stays { result ≢ 0 → signer.new ≡ signer.old }
{
    let number = answer_with(alloc, question, room, answer);
    if number == DONE {
        signer.bytes = *digest;
        return DONE;
    }
    number
}
