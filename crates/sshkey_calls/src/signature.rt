//! What has to be verified of a signature under a key.

ghost use Rattle.sshkey_keys_ref.specs.Keys.{key_bytes};
ghost use Rattle.sshkey_keys_ref.specs.Signatures.{signature_bytes};
ghost use Rattle.sshkey_model.specs.Keys.{Key, SpellsKey};
ghost use Rattle.sshkey_model.specs.Signatures.{Signature, SpellsSignature};
ghost use Rattle.sshkey_model.specs.Verification.{question};
ghost use Rattle.sshkey_calls.specs.Signatures.{TellsQuestion, TellsQuestionUnder};

use crate::number::{MEMORY, error_status};
use crate::question::{Question, answer_question};
use sshkey_keys_ref::{KeyDataRef, SignatureRef};
use std::alloc::Global;

/// Answers with the question that the signature raises, as one of the message under a key that was
/// read. Else returns the fault of bytes that are no signature.
pub fn ask_under(
    alloc: Global,
    signer: &KeyDataRef<'_>,
    message: &[u8],
    signature: &[u8],
    room: &mut [u8],
    answer: &mut Question,
) -> u32
    ensures { (k : Key) → SpellsKey k (key_bytes signer.now) → TellsQuestionUnder k message.now
        signature.now result answer.old answer.new room.old room.new }
{
    match SignatureRef::from_bytes(signature) {
        Ok(made) => ask(alloc, signer, message, &made, room, answer),
        Err(error) => error_status(error),
    }
}

/// The same of a signature that was read.
fn ask(
    alloc: Global,
    signer: &KeyDataRef<'_>,
    message: &[u8],
    made: &SignatureRef<'_>,
    room: &mut [u8],
    answer: &mut Question,
) -> u32
    ensures { (k : Key) (g : Signature) → SpellsKey k (key_bytes signer.now)
        → SpellsSignature g (signature_bytes made.now) → TellsQuestion
        (question k message.now g) result answer.old answer.new room.old room.new }
{
    let Ok(key) = signer.to_key_data(alloc) else {
        return MEMORY;
    };
    let Ok(signature) = made.to_signature(alloc) else {
        return MEMORY;
    };
    answer_question(alloc, key.question(message, &signature), room, answer)
}
