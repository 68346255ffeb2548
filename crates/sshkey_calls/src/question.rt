//! What has to be verified.

ghost use Rattle.std.specs.Prelude.{◌≡◌, IfOk, option_map};
ghost use Rattle.sshkey_cert_ref.specs.CertificateRef.{certificate_of};
ghost use Rattle.sshkey_cert.specs.Validity.{certificate_question};
ghost use Rattle.sshkey_keys.specs.Questions.{asks, question_of};
ghost use Rattle.sshkey_calls.specs.Signatures.{AddsQuestion, ArePlaced, GivesQuestion, TellsQuestion, question_bytes};
ghost use Rattle.sshkey_calls.specs.Rooms.{IsLaidOut};

use crate::number::{MEMORY, UNSUPPORTED, algorithm_number};
use crate::part::{self, Part, add, add_encoded};
use openssh_limits::padded_signature;
use sshkey_base::{Encode, Result};
use sshkey_cert_ref::CertificateRef;
use sshkey_keys::{Question as Asked, SignatureQuestion};
use std::alloc::Global;

/// What has to be verified: that the signature is one of the message under the key, by the
/// algorithm. The parts are parts of the room that was given.
#[repr(C)]
#[derive(Clone, Copy, Debug)]
pub struct Question {
    /// The key's blob (RFC 4253, section 6.6): one of DSA, ECDSA, Ed25519 or RSA.
    pub key: Part,
    /// The message that was signed.
    pub message: Part,
    /// The bytes of the signature, in the form that the algorithm has (RFC 4253, section 6.6;
    /// RFC 5656, section 3.1.2; RFC 8709, section 6). One by RSA has at least as many bytes as the
    /// modulus, up to 16,384 bits: in front are the zeros that its signer left out (RFC 8332,
    /// section 3).
    pub signature: Part,
    /// How many bytes of the room this takes.
    pub length: usize,
    /// 1 for DSA, 2, 3 and 4 for ECDSA on P-256, P-384 and P-521, 5 for Ed25519, 6 and 7 for RSA
    /// with SHA-256 and with SHA-512.
    pub algorithm: u32,
}

/// Answers with the question that a certificate raises, as `answer_question` does.
pub fn ask(
    alloc: Global,
    certificate: &CertificateRef<'_>,
    room: &mut [u8],
    answer: &mut Question,
) -> u32
    ensures { TellsQuestion (certificate_question (certificate_of certificate.now))
        result answer.old answer.new room.old room.new }
{
    match certificate.question(alloc) {
        Ok(asked) => write_question(alloc, &asked, room, answer),
        Err(_) => MEMORY,
    }
}

/// Answers with the question of a certificate, if it raises one.
fn write_question(
    alloc: Global,
    asked: &SignatureQuestion<'_>,
    room: &mut [u8],
    answer: &mut Question,
) -> u32
    ensures { TellsQuestion (asks asked.now) result answer.old answer.new room.old room.new }
{
    answer_question(alloc, asked.question(), room, answer)
}

/// Answers with the question that is raised, its parts in the room where there is room for them.
///
/// Returns 0; 2 where the room is shorter, which stays as it was; 1 if memory ran out; and 40 where
/// there is none, since a key and a signature do not go together. With 1 and 40 answer and room
/// stay as they were.
pub fn answer_question(
    alloc: Global,
    asked: Option<Asked<'_>>,
    room: &mut [u8],
    answer: &mut Question,
) -> u32
    ensures { TellsQuestion (option_map question_of asked.entry)
        result answer.old answer.new room.old room.new }
{
    match asked {
        Some(question) => answer_with(alloc, &question, room, answer),
        None => UNSUPPORTED,
    }
}

/// Answers with the question, its parts in the room where there is room for them.
pub(crate) fn answer_with(
    alloc: Global,
    question: &Asked<'_>,
    room: &mut [u8],
    answer: &mut Question,
) -> u32
    ensures { GivesQuestion (λ q. q ≡ question_of question.now)
        result answer.old answer.new room.old room.new }
{
    part::answer_with(lay_out_question(alloc, question), room, answer)
}

/// The bytes of the question's parts, one after the other, and where they are.
fn lay_out_question(alloc: Global, question: &Asked<'_>) -> Result<(Vec<u8>, Question)>
    ensures { IfOk result (λ laid. IsLaidOut question_bytes ArePlaced (question_of question.now)
        laid.0.items laid.1) }
{
    let mut content = Vec::new(alloc);
    let parts = add_question(alloc, question, &mut content)?;
    Ok((content, parts))
}

/// Adds the question's parts, one after the other, to the bytes that the room is to hold, and says
/// where they are. An RSA signature has the zeros in front that its signer left out.
///
/// Fails only when out of memory, or with `Length` for a key of more than 2^32 - 1 bytes. Then the
/// beginning of the parts may follow these bytes.
pub fn add_question(alloc: Global, question: &Asked<'_>, content: &mut Vec<u8>) -> Result<Question>
    ensures { IfOk result (λ parts. AddsQuestion (question_of question.now) parts
        content.old.items content.new.items) }
{
    let padded = padded_signature(alloc, question.key(), question.signature())?;
    let after = question.message().len().saturating_add(padded.len());
    content.reserve(question.key().encoded_len()?.saturating_add(after))?;
    let start = content.len();
    let key = add_encoded(question.key(), content)?;
    let message = add(question.message(), content)?;
    let signature = add(&padded, content)?;
    Ok(Question {
        key,
        message,
        signature,
        length: content.len() - start,
        algorithm: algorithm_number(question.algorithm()),
    })
}
