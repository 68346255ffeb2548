//! The questions.

use crate::bytes::{NO_LINE, erase, part, parts, text};
use crate::wire::shown;
use crate::{
    addresses, again, certificates, copies, drawn, entries, faulty, fields, files, hosts, issued,
    keys, kinds, krl, messages, names, narrow, openssh_lines, option_items, pairs, privates,
    requests, revoked, signatures, slices, validity, wire, without_memory,
};
use sshkey_base::{Algorithm, AlgorithmName, EcdsaCurve, Error, HashAlg, Mpint, Result};
use sshkey_cert::Certificate;
use sshkey_cert_values::{CertType, EndTime, OptionsMap, UnixTime};
use sshkey_ciphers::Kdf;
use sshkey_keys::{Fingerprint, KeyData, Signature};
use sshkey_kinds::{
    DsaPublicKey, EcdsaPublicKey, Ed25519PublicKey, OpaquePublicKeyBytes, RsaPublicKey,
    SkEcdsaSha2NistP256, SkEd25519,
};
use sshkey_pair_kinds::EcdsaPrivateKey;
use sshkey_pairs::KeypairData;
use sshkey_sshsig::SshSig;
use sshkey_tool::run;
use std::alloc::Global;
use std::fs::Files;

/// The answer to a line: a question and the byte strings that it is about.
pub(crate) fn answer_line<R: Files>(rt: &R, alloc: Global, line: &str) -> Result<String> {
    let (question, words) = line.split_once(' ').unwrap_or((line, ""));
    match question {
        "beginnings"
        | "copy"
        | "faulty"
        | "overlong"
        | "file"
        | "narrow"
        | "without-memory"
        | "with-memory" => {
            let (kind, after) = words.split_once(' ').unwrap_or((words, ""));
            let mut parts = parts(alloc, after)?;
            let answer = answer_about_kind(rt, alloc, question, kind, &parts);
            erase(&mut parts);
            answer
        }
        _ => {
            let mut parts = parts(alloc, words)?;
            let answer = answer(alloc, question, &parts);
            erase(&mut parts);
            answer
        }
    }
}

/// The answer to a question about values of a kind, or about the beginnings of those of a question.
fn answer_about_kind<R: Files>(
    rt: &R,
    alloc: Global,
    question: &str,
    kind: &str,
    parts: &[Vec<u8>],
) -> Result<String> {
    match question {
        "beginnings" => beginnings(alloc, kind, part(parts, 0)),
        "copy" => copies::value(alloc, kind, parts),
        "faulty" => faulty::value(alloc, kind, part(parts, 0)),
        "overlong" => faulty::overlong(alloc, kind, parts),
        "file" => files::value(rt, alloc, kind, parts),
        "narrow" => narrow::value(alloc, kind, part(parts, 0)),
        _ => without_memory::value(alloc, kind, parts),
    }
}

/// The answers to a question about each beginning of the bytes, from none of them to all.
fn beginnings(alloc: Global, question: &str, bytes: &[u8]) -> Result<String> {
    let mut answers = String::new(alloc);
    let mut from = 0;
    let mut last = said_of(alloc, question, &[])?;
    for len in 1..=bytes.len() {
        let next = said_of(alloc, question, bytes.get(..len).unwrap_or(bytes))?;
        if next != last {
            tell(alloc, &mut answers, from, len - 1, &last)?;
            from = len;
            last = next;
        }
    }
    tell(alloc, &mut answers, from, bytes.len(), &last)?;
    Ok(answers)
}

/// Adds what is said of the beginnings from one length to another.
fn tell(alloc: Global, answers: &mut String, from: usize, to: usize, said: &str) -> Result<()> {
    let between = if answers.is_empty() { "" } else { "; " };
    answers.push_str(&format!(in alloc; "{between}{from} to {to}: {said}")?)?;
    Ok(())
}

/// What is answered about one byte string, or the text of the refusal. Refused when out of memory
/// alone.
fn said_of(alloc: Global, question: &str, bytes: &[u8]) -> Result<String> {
    let parts = vec![in alloc; bytes.to_vec(alloc)?]?;
    match answer(alloc, question, &parts) {
        Ok(text) => Ok(text),
        Err(Error::Memory) => Err(Error::Memory),
        Err(error) => Ok(error.to_string(alloc)?),
    }
}

/// The answer to a question about byte strings.
fn answer(alloc: Global, question: &str, parts: &[Vec<u8>]) -> Result<String> {
    let bytes = part(parts, 0);
    match question {
        "u8" => wire::front::<u8>(alloc, bytes),
        "u32" => wire::front::<u32>(alloc, bytes),
        "u64" => wire::front::<u64>(alloc, bytes),
        "count" => wire::front::<usize>(alloc, bytes),
        "string" => wire::kept::<Vec<u8>>(alloc, bytes),
        "seven" => wire::kept::<[u8; 7]>(alloc, bytes),
        "short" => wire::short(alloc, bytes),
        "text" => wire::front::<String>(alloc, bytes),
        "list" => wire::list(alloc, bytes),
        "boxed" => wire::boxed(alloc, bytes),
        "mpint" => wire::front::<Mpint>(alloc, bytes),
        "number" => wire::number(alloc, bytes),
        "positive" => wire::positive(alloc, bytes),
        "rising-mpints" => wire::rising::<Mpint>(alloc, parts),
        "line" => shown_by_program(alloc, &["fingerprint"], bytes),
        "line-art" => shown_by_program(alloc, &["art", text(parts, 1)?], bytes),
        "normal" => shown_by_program(alloc, &["normal"], bytes),
        "cert" => certificate_by_program(alloc, parts),
        _ => answer_of_names(alloc, question, parts),
    }
}

fn answer_of_names(alloc: Global, question: &str, parts: &[Vec<u8>]) -> Result<String> {
    let bytes = part(parts, 0);
    match question {
        "algorithm" => wire::front::<Algorithm>(alloc, bytes),
        "certified-algorithm" => names::certified(alloc, bytes),
        "curve" => wire::front::<EcdsaCurve>(alloc, bytes),
        "hash" => wire::front::<HashAlg>(alloc, bytes),
        "digest" => names::digest(alloc, parts),
        "rising-algorithms" => wire::rising::<Algorithm>(alloc, parts),
        _ => answer_of_kinds(alloc, question, parts),
    }
}

fn answer_of_kinds(alloc: Global, question: &str, parts: &[Vec<u8>]) -> Result<String> {
    let bytes = part(parts, 0);
    match question {
        "point-256" => kinds::point::<65>(alloc, bytes),
        "point-384" => kinds::point::<97>(alloc, bytes),
        "point-521" => kinds::point::<133>(alloc, bytes),
        "point-of-no-curve" => kinds::point::<64>(alloc, bytes),
        "point" => kinds::curve_of_point(alloc, bytes),
        "ed25519-bytes" => shown(alloc, Ed25519PublicKey::try_from(bytes)),
        "dsa-body" => wire::whole::<DsaPublicKey>(alloc, bytes),
        "ecdsa-body" => wire::whole::<EcdsaPublicKey>(alloc, bytes),
        "ed25519-body" => wire::whole::<Ed25519PublicKey>(alloc, bytes),
        "rsa-body" => wire::whole::<RsaPublicKey>(alloc, bytes),
        "sk-ecdsa-body" => wire::whole::<SkEcdsaSha2NistP256>(alloc, bytes),
        "sk-ed25519-body" => wire::whole::<SkEd25519>(alloc, bytes),
        "opaque-body" => wire::whole::<OpaquePublicKeyBytes>(alloc, bytes),
        _ => answer_of_keys(alloc, question, parts),
    }
}

fn answer_of_keys(alloc: Global, question: &str, parts: &[Vec<u8>]) -> Result<String> {
    let bytes = part(parts, 0);
    match question {
        "key" => wire::whole::<KeyData>(alloc, bytes),
        "key-in-front" => wire::kept::<KeyData>(alloc, bytes),
        "kind" => keys::name_and_kind(alloc, bytes),
        "fingerprints" => keys::fingerprints(alloc, bytes),
        "art" => keys::art(alloc, parts),
        "body-under" => keys::named(alloc, parts),
        "key-of-parts" => keys::made(alloc, parts),
        "rising-keys" => wire::rising::<KeyData>(alloc, parts),
        "signature" => signatures::whole(alloc, bytes),
        "signature-in-front" => signatures::front(alloc, bytes),
        "signature-of-bytes" => signatures::made(alloc, parts),
        "rising-signatures" => wire::rising::<Signature>(alloc, parts),
        "accepted" => signatures::accepted(alloc, parts),
        "known" => signatures::known(alloc, parts),
        _ => answer_of_messages(alloc, question, parts),
    }
}

fn answer_of_messages(alloc: Global, question: &str, parts: &[Vec<u8>]) -> Result<String> {
    let bytes = part(parts, 0);
    match question {
        "ssh-signature" => wire::whole::<SshSig>(alloc, bytes),
        "signed-data" => messages::data(alloc, parts),
        "signed-bytes" => messages::bytes(alloc, parts),
        "signed-data-of-digest" => messages::data_of_digest(alloc, parts),
        "signed-bytes-of-digest" => messages::bytes_of_digest(alloc, parts),
        "ssh-signature-made" => messages::made(alloc, parts),
        "verified" => messages::verified(alloc, parts),
        "known-ssh-signature" => messages::known(alloc, parts),
        "public-key" => certificates::public_key(alloc, bytes),
        "drawn-certificate" => drawn::certificate(alloc, bytes),
        "login" => requests::told(alloc, bytes),
        "login-question" => requests::asked(alloc, parts),
        "known-login" => requests::known(alloc, parts),
        _ => answer_of_slices(alloc, question, parts),
    }
}

fn answer_of_slices(alloc: Global, question: &str, parts: &[Vec<u8>]) -> Result<String> {
    let bytes = part(parts, 0);
    match question {
        "key-slice" => slices::key(alloc, bytes),
        "fingerprints-slice" => slices::fingerprints(alloc, bytes),
        "signature-slice" => slices::signature(alloc, bytes),
        "body-slice" => slices::body(alloc, parts),
        "texts-slice" => slices::texts(alloc, bytes),
        "options-slice" => slices::options(alloc, bytes),
        "certificate-slice" => slices::certificate(alloc, bytes),
        "certificate-parts" => certificates::parts(alloc, bytes),
        "validity-slice" | "validity-of-slice" => validity::slice(alloc, parts),
        "accepted-slice" => signatures::accepted_slice(alloc, parts),
        "known-slice" => signatures::known_slice(alloc, parts),
        "krl" => krl::said(alloc, parts),
        "krl-made" => krl::made(alloc, parts),
        "revoked" => revoked::said(alloc, parts),
        _ => answer_of_certificates(alloc, question, parts),
    }
}

fn answer_of_certificates(alloc: Global, question: &str, parts: &[Vec<u8>]) -> Result<String> {
    let bytes = part(parts, 0);
    match question {
        "options" => wire::whole::<OptionsMap>(alloc, bytes),
        "insert" => again::insert(alloc, parts),
        "certificate-type" => wire::whole::<CertType>(alloc, bytes),
        "time" => wire::whole::<UnixTime>(alloc, bytes),
        "end-time" => wire::whole::<EndTime>(alloc, bytes),
        "certificate" => wire::whole::<Certificate>(alloc, bytes),
        "key-or-certificate" => certificates::key_or_certificate(alloc, bytes),
        "options-of-pairs" => certificates::options(alloc, parts),
        "issued" => issued::certificate(alloc, parts),
        "validity" | "validity-of" => validity::owned(alloc, parts),
        "certificate-fields" => fields::told(alloc, parts),
        "known-certificate" => validity::known(alloc, parts),
        "known-certificate-slice" => validity::known_slice(alloc, parts),
        _ => answer_of_privates(alloc, question, parts),
    }
}

fn answer_of_privates(alloc: Global, question: &str, parts: &[Vec<u8>]) -> Result<String> {
    let bytes = part(parts, 0);
    match question {
        "scalar" => wire::whole::<EcdsaPrivateKey<32>>(alloc, bytes),
        "derivation" => wire::whole::<Kdf>(alloc, bytes),
        "pair" => wire::whole::<KeypairData>(alloc, bytes),
        "made-pair" => pairs::made(alloc, parts),
        "made-scalar" => pairs::made_scalar(alloc, bytes),
        "pair-under" => pairs::named(alloc, parts),
        "shown-pair" => pairs::shown(alloc, bytes),
        "pair-parts" => pairs::told(alloc, bytes),
        "private-key" => privates::whole(alloc, bytes),
        "padded-private-key" => privates::padded(alloc, bytes),
        "private-key-in-front" => privates::front(alloc, bytes),
        "private-key-with-comment" => privates::commented(alloc, parts),
        "private-key-of-pair" => privates::of_pair(alloc, parts),
        "compared-private-keys" => privates::compared(alloc, parts),
        "shown-private-key" => privates::debug(alloc, bytes),
        _ => answer_of_entries(alloc, question, parts),
    }
}

fn answer_of_entries(alloc: Global, question: &str, parts: &[Vec<u8>]) -> Result<String> {
    match question {
        "keys" => shown_by_program(alloc, &["keys"], part(parts, 0)),
        "hosts" => shown_by_program(alloc, &["hosts"], part(parts, 0)),
        "openssh-option" => option_items::named(alloc, parts),
        "made-authorized-key" => option_items::made(alloc, parts),
        "hosts-for" => hosts::are_for(alloc, parts),
        "host-verdict" => hosts::judged(alloc, parts),
        "host-authorities" => hosts::authorities_of(alloc, parts),
        "made-host" => hosts::made(alloc, parts),
        "source-address" => addresses::source(alloc, parts),
        "from" => addresses::from(alloc, parts),
        "from-at" => addresses::from_at(alloc, parts),
        _ => answer_about_name(alloc, question, text(parts, 0)?),
    }
}

/// The answer to a question about a text.
fn answer_about_name(alloc: Global, question: &str, name: &str) -> Result<String> {
    match question {
        "algorithm-name" => names::algorithm(alloc, name),
        "certified-name" => shown(alloc, Algorithm::new_certificate(alloc, name)),
        "private-name" => AlgorithmName::new(alloc, name)?.certificate_type(alloc),
        "private-certified-name" => shown(alloc, AlgorithmName::from_certificate_type(alloc, name)),
        "curve-name" => shown(alloc, EcdsaCurve::new(name)),
        "hash-name" => shown(alloc, HashAlg::new(name)),
        "fingerprint-text" => shown(alloc, name.parse::<Fingerprint>()),
        "drawn-derivation" => drawn::derivation(alloc, name),
        _ => answer_about_line(alloc, question, name),
    }
}

fn answer_about_line(alloc: Global, question: &str, line: &str) -> Result<String> {
    match question {
        "certificate-line" => certificates::line(alloc, line),
        "each-key" => again::each_key(alloc, line),
        "each-host" => again::each_host(alloc, line),
        "authorized-key" => entries::authorized(alloc, line),
        "openssh-keys" => openssh_lines::keys(alloc, line),
        "openssh-key" => openssh_lines::key(alloc, line),
        "openssh-hosts" => openssh_lines::hosts(alloc, line),
        "openssh-host" => openssh_lines::host(alloc, line),
        "openssh-options" => option_items::all(alloc, line),
        "config-options" => entries::options(alloc, line),
        "known-host" => entries::host(alloc, line),
        "host-patterns" => entries::hosts(alloc, line),
        "marker" => entries::marker(alloc, line),
        _ => Err(NO_LINE),
    }
}

/// The status and the lines of the program for these words on that input, with `; ` between the
/// lines. The output has room for all of them.
fn shown_by_program(alloc: Global, words: &[&str], input: &[u8]) -> Result<String> {
    let mut left = input;
    let mut output = Vec::with_capacity(alloc, 4096)?;
    let status = run(alloc, words, &mut left, &mut output);
    let text = std::str::from_utf8(&output)?;
    let lines = text.trim_end_matches('\n').replace(alloc, '\n', "; ")?;
    Ok(format!(in alloc; "{status}, {lines}")?)
}

/// The same about the certificate in a line, and about a principal where a second byte string is
/// one.
fn certificate_by_program(alloc: Global, parts: &[Vec<u8>]) -> Result<String> {
    let input = part(parts, 0);
    match parts {
        [_] => shown_by_program(alloc, &["cert"], input),
        _ => shown_by_program(alloc, &["cert", text(parts, 1)?], input),
    }
}
