//! What has to be verified of an SSH signature.

ghost use Rattle.sshkey_calls.specs.Signatures.{TellsSshsigQuestion, TellsSshsigQuestionOfDigest};

use sshkey_calls::sshsig::{ask, ask_of_digest, find_signature};
use sshkey_calls::{Question, Sha256Digest};
use std::alloc::Global;

/// What has to be verified of the SSH signature that all the bytes spell, which are the decoded
/// content of the armour: as a signature of the message in that namespace. And by whom it is: the
/// SHA-256 fingerprint of its key. Whether that key may sign there is the caller's to judge.
///
/// Returns 0 with the question in the room, 2 where the room is too short for it, 1 if memory ran
/// out, from 10 to 29 the fault of bytes that are no SSH signature, 41 for a signature in another
/// namespace, and 40 where the key and the signature's algorithm do not go together: such a
/// signature is not valid. Where the question is answered, the signature is valid exactly if the
/// verification says yes. Memory is taken only for a part that is whole.
#[unsafe(no_mangle)]
pub extern "C" fn raf_sshsig_question(
    alloc: Global,
    signature: &[u8],
    namespace: &[u8],
    message: &[u8],
    room: &mut [u8],
    answer: &mut Question,
    signer: &mut Sha256Digest,
) -> u32
    ensures { TellsSshsigQuestion signature.now namespace.now message.now
        result answer.old answer.new room.old room.new signer.old signer.new }
{
    match find_signature(alloc, signature, namespace) {
        Ok(found) => ask(alloc, &found, message, room, answer, signer),
        Err(number) => number,
    }
}

/// The same with the digest of the message, by the hash that the signature names, in place of the
/// message: who has digested a file piece by piece needs no more of it.
///
/// Returns what `raf_sshsig_question` returns for each message that has this digest. Where the
/// bytes spell an SSH signature in that namespace, returns 13 for a digest of another length than
/// the hash's: 32 bytes for SHA-256 and 64 for SHA-512.
#[unsafe(no_mangle)]
pub extern "C" fn raf_sshsig_question_of_digest(
    alloc: Global,
    signature: &[u8],
    namespace: &[u8],
    digest: &[u8],
    room: &mut [u8],
    answer: &mut Question,
    signer: &mut Sha256Digest,
) -> u32
    ensures { TellsSshsigQuestionOfDigest signature.now namespace.now digest.now
        result answer.old answer.new room.old room.new signer.old signer.new }
{
    match find_signature(alloc, signature, namespace) {
        Ok(found) => ask_of_digest(alloc, &found, digest, room, answer, signer),
        Err(number) => number,
    }
}
