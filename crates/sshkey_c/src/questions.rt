//! What has to be verified of a login.

ghost use Rattle.std.specs.Prelude.{◌≡◌, ◌≢◌, ◌++◌, ◌<◌, ℕ, List, IfErr, IfOk, option_map};
ghost use Rattle.sha2.specs.Hashers.{Holds256};
ghost use Rattle.sshkey_keys.specs.Questions.{asks};
ghost use Rattle.sshkey_model.specs.Fingerprints.{digest};
ghost use Rattle.sshkey_model.specs.Names as names;
ghost use Rattle.publickey_login.specs.Results.{authority_in, client_in};
ghost use Rattle.sshkey_c.specs.Verdicts.{AddsAsked, IsUnraised, LaysOutQuestions, head};
ghost use Rattle.sshkey_c.specs.Refusals.{said};

use crate::grant::bit;
use crate::refusal::{CLIENT_NOT_SIGNED, Refusal, said};
use publickey_login::Pending;
use sha2::{Digest, Sha256};
use sshkey_calls::number::{MEMORY, NOT_SIGNED};
use sshkey_calls::{Part, Question, Sha256Digest, add_question};
use sshkey_keys::SignatureQuestion;
use std::alloc::Global;

/// The authority's signature of the certificate is asked about.
pub(crate) const ASKS_AUTHORITY: u32 = 1;
/// The client's signature is.
pub(crate) const ASKS_CLIENT: u32 = 2;

/// What has to be verified of a login. The parts of the questions are parts of the room that was
/// given.
#[repr(C)]
#[derive(Clone, Copy, Debug)]
pub struct LoginQuestions {
    /// What is asked about the signature of the certificate; all zero where nothing is.
    pub authority: Question,
    /// What is asked about the client's signature, likewise.
    pub client: Question,
    /// How many bytes of the room both take.
    pub length: usize,
    /// A SHA-256 digest that names these questions.
    pub ticket: Sha256Digest,
    /// Which are asked, a sum: 1 the authority's, 2 the client's.
    pub asked: u32,
}

/// The question of nothing.
const NO_QUESTION: Question = Question {
    key: NO_PART,
    message: NO_PART,
    signature: NO_PART,
    length: 0,
    algorithm: 0,
};

/// A part of no bytes.
const NO_PART: Part = Part {
    start: 0,
    length: 0,
};

/// The bytes of the questions' parts, one after the other, and where they are. Fails only when out
/// of memory, or for a question that is asked and not raised, since a key and a signature do not go
/// together: with 30 for the authority's, and else with 84.
pub(crate) fn lay_out_questions(
    alloc: Global,
    held: &Pending,
) -> Result<(Vec<u8>, LoginQuestions), Refusal>
    ensures laid { LaysOutQuestions (authority_in held.now) (client_in held.now) result }
    ensures range { IfErr result (λ r. r.number ≢ 1 → 2 < r.number) }
{
    let mut content = Vec::new(alloc);
    let of_authority = held.authority_question();
    let of_client = held.client_question();
    let authority = add_asked(alloc, of_authority, NOT_SIGNED, &mut content)?;
    let client = add_asked(alloc, of_client, CLIENT_NOT_SIGNED, &mut content)?;
    let ticket = ticket_of(&authority, &client, &content);
    let length = content.len();
    let asked = bit(ASKS_AUTHORITY, of_authority.is_some()) + bit(ASKS_CLIENT, of_client.is_some());
    Ok((
        content,
        LoginQuestions {
            authority,
            client,
            length,
            ticket,
            asked,
        },
    ))
}

/// Adds the parts of what is asked, if something is; fails with that number where it is not raised.
fn add_asked(
    alloc: Global,
    asked: Option<&SignatureQuestion<'static>>,
    unraised: u32,
    content: &mut Vec<u8>,
) -> Result<Question, Refusal>
    ensures added { IfOk result (λ parts. AddsAsked (option_map (λ it. asks it.now) asked.entry)
        parts content.old.items content.new.items) }
    ensures unraised { IfErr result (λ r. r.number ≢ 1
        → IsUnraised (option_map (λ it. asks it.now) asked.entry) × (r ≡ said unraised)) }
{
    let Some(held) = asked else {
        return Ok(NO_QUESTION);
    };
    let Some(question) = held.question() else {
        return Err(said(unraised));
    };
    match add_question(alloc, &question, content) {
        Ok(parts) => Ok(parts),
        Err(_) => Err(said(MEMORY)),
    }
}

/// The digest of both questions' algorithms and lengths, and of their bytes.
fn ticket_of(authority: &Question, client: &Question, content: &[u8]) -> Sha256Digest
    ensures { result.bytes ≡ digest names.Sha256
        (head authority.now ++ (head client.now ++ content.now)) }
{
    let mut digester = Sha256::new();
    update_head(&mut digester, authority);
    update_head(&mut digester, client);
    digester.update(content);
    Sha256Digest {
        bytes: digester.finalize(),
    }
}

/// Has the hasher take the question's algorithm, in 4 bytes, and the lengths of its parts, in 8
/// each, the most significant first.
fn update_head(digester: &mut Sha256, question: &Question)
    ensures { (m : List ℕ) → Holds256 digester.old m
        → Holds256 digester.new (m ++ head question.now) }
{
    digester.update(question.algorithm.to_be_bytes().as_slice());
    digester.update((question.key.length as u64).to_be_bytes().as_slice());
    digester.update((question.message.length as u64).to_be_bytes().as_slice());
    digester.update((question.signature.length as u64).to_be_bytes().as_slice());
}
