//! Asks the callers of `ssh_key` that stand beside this crate, whom `user_keys` lets in, and who logs
//! in by `publickey_login`, line by line.
//!
//! A line is a question and what it is about, with a tab between; its answer is written on a line.
//! Comments and empty lines are written as they are. A line `verified` tells of a signature that
//! another program has verified: those, and no others, are accepted in the lines after it. A line
//! `hashed` tells of an HMAC-SHA1 that another program has computed. A line `questions` before a
//! question has the number of times written that the verifier is asked for its answer. A line `bits`
//! before a question has how many bits an RSA key has at least.
//!
//! # What is proved, tested and trusted
//!
//! Nothing is claimed: the checks ask it.
#![tactic(auto)]

mod allowed;
mod client;
mod deploy;
mod grants;
mod hashes;
mod host;
mod issue;
mod login;
mod messages;
mod publickey;
mod requests;
mod revoked;
mod signer;
mod user_key;
mod verdicts;
mod verified;
mod words;

use grants::show;
use hashes::{Hashes, read_hashed};
use login_policy::Client;
use publickey::{Verdict, decide};
use ssh_key::{Error, Result};
use std::alloc::Global;
use std::io::{self, BufRead, BufReader, Write};
use user_key::{Admission, ask};
use verdicts::show_verdict;
use verified::{Told, read_verified};
use words::{NO_LINE, least_bits};

fn main(rt: HostRuntime) -> io::Result<()> {
    let alloc = rt.alloc();
    let mut output = io::writer(&rt);
    let mut told = Told::new(alloc);
    let mut hashes = Hashes::new(alloc);
    for line in BufReader::new(alloc, rt.reader())?.lines(alloc) {
        let line = line?;
        if line.is_empty() || line.starts_with('#') {
            writeln!(output, "{line}")?;
            continue;
        }
        match answer(alloc, &line, &mut told, &mut hashes) {
            Ok(Outcome::Text(text)) => writeln!(output, "{text}")?,
            Ok(Outcome::Admission(admission)) => show(&mut output, &admission)?,
            Ok(Outcome::Verdict(verdict)) => show_verdict(&mut output, &verdict)?,
            Err(error) => writeln!(output, "refused: {error}")?,
        }
    }
    Ok(())
}

/// What a line is answered with.
#[derive(Drop)]
enum Outcome {
    Text(String),
    Admission(Admission),
    Verdict(Verdict),
}

/// The answer to a line.
fn answer(alloc: Global, line: &str, told: &mut Told, hashes: &mut Hashes) -> Result<Outcome> {
    let words = line.split('\t').collect::<Vec<&str>>(alloc)?;
    let [question, words @ ..] = words.as_slice() else {
        return Err(NO_LINE);
    };
    match *question {
        "publickey" => Ok(Outcome::Verdict(decide(alloc, words)?)),
        "user-key" | "user-certificate" | "user-principal" => {
            Ok(Outcome::Admission(ask(alloc, question, words)?))
        }
        _ => Ok(Outcome::Text(text(alloc, question, words, told, hashes)?)),
    }
}

/// The text that is the answer to a question, or to what the program is told.
fn text(
    alloc: Global,
    question: &str,
    words: &[&str],
    told: &mut Told,
    hashes: &mut Hashes,
) -> Result<String> {
    match question {
        "verified" => {
            told.add(read_verified(alloc, words)?)?;
            Ok(String::from_str(alloc, "told")?)
        }
        "hashed" => {
            hashes.add(read_hashed(alloc, words)?)?;
            Ok(String::from_str(alloc, "told")?)
        }
        "questions" => questions(alloc, words, told, hashes),
        "bits" => bits(alloc, words, told, hashes),
        _ => reply(alloc, question, words, 0, told, hashes),
    }
}

/// How many questions the verifier is asked before the question in the words is answered.
fn questions(alloc: Global, words: &[&str], told: &Told, hashes: &Hashes) -> Result<String> {
    let [question, words @ ..] = words else {
        return Err(NO_LINE);
    };
    let before = told.asked();
    if let Err(Error::Memory) = reply(alloc, question, words, 0, told, hashes) {
        return Err(Error::Memory);
    }
    Ok(format!(in alloc; "{}", told.asked().saturating_sub(before))?)
}

/// The answer to the question in the words after the first, which is how many bits an RSA key has
/// at least.
fn bits(alloc: Global, words: &[&str], told: &Told, hashes: &Hashes) -> Result<String> {
    let [least, question, words @ ..] = words else {
        return Err(NO_LINE);
    };
    reply(alloc, question, words, least_bits(least)?, told, hashes)
}

/// The answer to a question, where an RSA key has so many bits at least.
fn reply(
    alloc: Global,
    question: &str,
    words: &[&str],
    least_rsa_bits: u32,
    told: &Told,
    hashes: &Hashes,
) -> Result<String> {
    match question {
        "agent-request" => messages::request(alloc, words),
        "agent-response" => messages::response(alloc, words),
        "agent-signature" => client::answer(alloc, words, told),
        "allowed-signer" => allowed::answer(alloc, words, told),
        "deploy" => deploy::answer(alloc, words, told),
        "host-key" => host::key(alloc, words, least_rsa_bits, hashes),
        "host-certificate" => host::certificate(alloc, words, least_rsa_bits, hashes, told),
        "issue" => issue::answer(alloc, words, told),
        "login" => login::answer(alloc, words, least_rsa_bits, Client::Unknown, told),
        "login-from" => login::answer_from(alloc, words, least_rsa_bits, told),
        _ => Err(NO_LINE),
    }
}
