//! Who logs in by public key, given what the caller's verification said.

ghost use Rattle.std.specs.Prelude.{◌≡◌, ◌≢◌, ◌<◌, IfErr};
ghost use Rattle.publickey_login.specs.Sources.{client_known};
ghost use Rattle.publickey_login.specs.Results.{authority_in, client_in, grant_in};
ghost use Rattle.sshkey_c.specs.Grants.{IsRefused};
ghost use Rattle.sshkey_c.specs.Verdicts.{AnswersPended, Decides, Judges, JudgesLogIn, TellsLogIn, TellsLogInQuestions, TellsOffer, TellsOfferQuestions, answers_in};
ghost use Rattle.publickey_login.specs.Signatures.{BySshd};
ghost use Rattle.sshkey_c.specs.Logins.{AreTexts, PendsOf, signed_in};

use crate::grant::{GrantParts, lay_out_grant, no_grant, write_grant};
use crate::login::{LoginParts, client_of, signed_in};
use crate::pend::pend;
use crate::questions::{ASKS_AUTHORITY, ASKS_CLIENT, LoginQuestions, lay_out_questions};
use crate::refusal::{OTHER_QUESTIONS, Refusal, UNSIGNED, refusal_of, said};
use publickey_login::laws::one_grant;
use publickey_login::{Answers, Pending, PublickeyGrant, Signed, client_known};
use sshkey_calls::Sha256Digest;
use sshkey_calls::number::{DONE, MEMORY, REVOKED, SHORT_BUFFER};
use sshkey_calls::part::write_to;
use std::alloc::Global;

/// What has to be verified of a login by public key, before `raf_log_in` is told what the
/// verification said: of a certificate the authority's signature, and the client's, unless somebody
/// else has verified it.
///
/// Returns 0 with the questions in the room, or 2 where the room is too short for them, exactly if
/// all is right but the signatures; 1 if memory ran out, and else what `raf_log_in` says then,
/// whatever the answers are. A signature that raises no question is none: 30 for the authority's,
/// and 84 for the client's.
///
/// So nobody verifies what a stranger certified, nor anything where anything else is wrong. With 2
/// the room stays as it was, and the answer says how much is needed; with every other number but 0
/// the answer stays as it was, too. Memory is taken only where user and host are UTF-8.
#[unsafe(no_mangle)]
pub extern "C" fn raf_log_in_questions(
    alloc: Global,
    login: &LoginParts<'_>,
    room: &mut [u8],
    answer: &mut LoginQuestions,
) -> u32
    ensures asked { TellsLogInQuestions login.now result answer.old answer.new room.old room.new }
    ensures memory { result ≡ 1 → AreTexts login.now }
{
    let Some(signed) = signed_in(&login.signed_by) else {
        return UNSIGNED;
    };
    one_grant();
    let pended = pend(alloc, login, &signed, client_of(&login.place));
    ask(alloc, pended, room, answer)
}

/// Lets in who holds the key that is offered and has signed with it, as `publickey_login::log_in`
/// does, and says what the login is bound to. `answers` is the sum of the questions that were
/// answered yes, 1 the authority's and 2 the client's, and the ticket that of
/// `raf_log_in_questions`. An answer to a question that is not asked does not count.
///
/// Returns 0 with the grant, exactly if all is right but the signatures, the ticket is that of the
/// questions that are left, and each of these was answered yes; 2 if so, and the room is too short
/// for the grant: then the answer is nothing but how much is needed; 1 if memory ran out; and else
/// what is wrong first:
/// - 104 where nobody has seen the signature, 4 for a user or a host that is not UTF-8, 105 where
///   it is not told whom authorities let in;
/// - the number of what `publickey_login::pending` refuses: from 10 to 29 the fault of bytes that
///   are no key and no certificate; 59; of a key 58 or 56; 96 where a line cannot be told, 98 where
///   a text could not be read; where nothing lets in, 91 to 95 by why the first line refuses that
///   is for what is offered, or 90; of a certificate 70, 71, 59, 73 to 76, 31, 58 or 56, 32 to 34,
///   57; of the client's signature 81 to 83, 13 for a request that is too long, 85 where nobody
///   tells the flags, 86 for bytes that are no signature;
/// - 30 for an authority's signature that raises no question, and 84 for such a one of the
///   client's;
/// - 106 where the ticket is of other questions;
/// - 30 where the authority's was not answered yes, and then 84 where the client's was not.
///
/// With any number but 0 nothing is granted, and the answer is nothing but the line and the text
/// that are the reason. Memory is taken only where user and host are UTF-8.
#[unsafe(no_mangle)]
pub extern "C" fn raf_log_in(
    alloc: Global,
    login: &LoginParts<'_>,
    ticket: &Sha256Digest,
    answers: u32,
    room: &mut [u8],
    answer: &mut GrantParts,
) -> u32
    ensures verdict { TellsLogIn login.now ticket.now.bytes answers result answer.new
        room.old room.new }
    ensures stays { result ≢ 0 → result ≢ 2 → IsRefused answer.new × (room.new ≡ room.old) }
    ensures memory { result ≡ 1 → AreTexts login.now }
{
    match judge(alloc, login, ticket, answers) {
        Ok((content, grant)) => {
            let short = no_grant(grant.length, said(SHORT_BUFFER));
            write_grant(&content, grant, short, room, answer)
        }
        Err(refusal) => {
            *answer = no_grant(0, refusal);
            refusal.number
        }
    }
}

/// What has to be verified to answer the query without a signature (RFC 4252, section 7): of a
/// certificate the authority's signature.
///
/// The answer and its number are those of `raf_log_in_questions`, but nothing is said about a
/// client's signature, and an address that is left to the caller is not known.
#[unsafe(no_mangle)]
pub extern "C" fn raf_may_offer_questions(
    alloc: Global,
    login: &LoginParts<'_>,
    room: &mut [u8],
    answer: &mut LoginQuestions,
) -> u32
    ensures asked { TellsOfferQuestions login.now result answer.old answer.new room.old room.new }
    ensures memory { result ≡ 1 → AreTexts login.now }
{
    one_grant();
    ask(alloc, pend_offer(alloc, login), room, answer)
}

/// Whether what is offered lets in whoever signs with it (`publickey_login::may_offer`). It grants
/// nothing.
///
/// Returns 0 exactly if so, where the ticket is that of `raf_may_offer_questions`, and the bit 1 of
/// the answers says that the question was answered yes; 1 if memory ran out; and else what
/// `raf_log_in` says, but nothing about a client's signature.
#[unsafe(no_mangle)]
pub extern "C" fn raf_may_offer(
    alloc: Global,
    login: &LoginParts<'_>,
    ticket: &Sha256Digest,
    answers: u32,
) -> u32
    ensures verdict { TellsOffer login.now ticket.now.bytes answers result }
    ensures memory { result ≡ 1 → AreTexts login.now }
{
    match decide_offer(alloc, login, ticket, answers) {
        Ok(_) => DONE,
        Err(refusal) => refusal.number,
    }
}

/// Answers with the questions of what is pending.
fn ask(
    alloc: Global,
    pended: Result<Pending, Refusal>,
    room: &mut [u8],
    answer: &mut LoginQuestions,
) -> u32
    requires { IfErr pended (λ r. r.number ≢ 1 → 2 < r.number) }
    ensures { AnswersPended pended result answer.old answer.new room.old room.new }
{
    let laid = match pended {
        Ok(held) => lay_out_questions(alloc, &held),
        Err(refusal) => Err(refusal),
    };
    match laid {
        Ok((content, questions)) => {
            *answer = questions;
            if write_to(room, &content) {
                return DONE;
            }
            SHORT_BUFFER
        }
        Err(refusal) => refusal.number,
    }
}

/// What is granted, laid out, or why nothing is.
fn judge(
    alloc: Global,
    login: &LoginParts<'_>,
    ticket: &Sha256Digest,
    answers: u32,
) -> Result<(Vec<u8>, GrantParts), Refusal>
    ensures verdict { JudgesLogIn login.now ticket.now.bytes answers
        (signed_in login.now.signed_by) result }
    ensures range { IfErr result (λ r. r.number ≢ 1 → 2 < r.number) }
    ensures memory { IfErr result (λ r. r.number ≡ 1 → AreTexts login.now) }
{
    let Some(signed) = signed_in(&login.signed_by) else {
        return Err(said(UNSIGNED));
    };
    one_grant();
    let held = pend(alloc, login, &signed, client_of(&login.place))?;
    let grant = decide(alloc, held, ticket, answers)?;
    match lay_out_grant(alloc, &grant) {
        Ok(laid) => Ok(laid),
        Err(_) => Err(said(MEMORY)),
    }
}

/// What would be granted if the client signed, or why nothing would be.
fn decide_offer(
    alloc: Global,
    login: &LoginParts<'_>,
    ticket: &Sha256Digest,
    answers: u32,
) -> Result<PublickeyGrant, Refusal>
    ensures verdict { Judges login.now BySshd client_known ticket.now.bytes answers
        (λ g granted. granted ≡ g) result }
    ensures range { IfErr result (λ r. r.number ≢ 1 → 2 < r.number) }
    ensures memory { IfErr result (λ r. r.number ≡ 1 → AreTexts login.now) }
{
    one_grant();
    let held = pend_offer(alloc, login)?;
    decide(alloc, held, ticket, answers)
}

/// What is pending of a query, which nobody has signed: as where sshd(8) verifies the signature,
/// but no address is left to the caller.
fn pend_offer(alloc: Global, login: &LoginParts<'_>) -> Result<Pending, Refusal>
    ensures verdict { PendsOf login.now BySshd client_known result }
    ensures range { IfErr result (λ r. r.number ≢ 1 → 2 < r.number) }
    ensures memory { IfErr result (λ r. r.number ≡ 1 → AreTexts login.now) }
{
    let client = client_known(client_of(&login.place));
    pend(alloc, login, &Signed::BySshd, client)
}

/// What is granted by these answers to what is pending, if the ticket is of its questions.
fn decide(
    alloc: Global,
    held: Pending,
    ticket: &Sha256Digest,
    answers: u32,
) -> Result<PublickeyGrant, Refusal>
    ensures decides { Decides (grant_in held) (authority_in held) (client_in held)
        ticket.now.bytes answers result }
    ensures range { IfErr result (λ r. r.number ≢ 1 → 2 < r.number) }
{
    let (_, questions) = lay_out_questions(alloc, &held)?;
    if questions.ticket.bytes != ticket.bytes {
        return Err(said(OTHER_QUESTIONS));
    }
    match held.decide(answers_in(answers)) {
        Ok(grant) => Ok(grant),
        Err(refusal) => Err(refusal_of(refusal, REVOKED)),
    }
}

/// Which questions were answered yes.
fn answers_in(answers: u32) -> Answers
    ensures { result ≡ answers_in answers }
{
    Answers {
        authority: answers & ASKS_AUTHORITY != 0,
        client: answers & ASKS_CLIENT != 0,
    }
}
