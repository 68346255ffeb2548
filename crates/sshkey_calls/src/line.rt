//! Lines of key files and of certificate files.

ghost use Rattle.std.specs.Prelude.{◌≡◌, ◌⊎◌, ◌<◌, ◌++◌, IfOk, List, ℕ};
ghost use Rattle.base64.specs.GeneralPurpose.{IsBytes};
ghost use Rattle.sshkey_model.specs.Keys.{SpellsKey};
ghost use Rattle.sshkey_model.specs.Lines.{IsCut, IsLine, IsNoLine, IsWithout, after_space, key_name, space};
ghost use Rattle.sshkey_calls.specs.KeyLines.{ArePlaced, HoldsContent, NeedsLine, NumbersKeyFault, ReadsContent, TellsLineFault, content_of, fault_of_either, line_bytes};
ghost use Rattle.sshkey_calls.specs.Rooms.{IsLaidOut};

use crate::number::{LABEL, MEMORY, error_status};
use crate::part::{self, Part, add};
use base64::decoded_len_estimate;
use base64::engine::general_purpose::STANDARD;
use sshkey_base::{Error, Result};
use sshkey_cert::Certificate;
use sshkey_keys::KeyData;
use std::alloc::Global;

/// What a line of a key file or of a certificate file holds. The parts are parts of the room that
/// was given.
#[repr(C)]
#[derive(Clone, Copy, Debug)]
pub struct Line {
    /// The bytes of the key or of the certificate.
    pub blob: Part,
    /// The comment, which may be empty.
    pub comment: Part,
    /// How many bytes of the room these take.
    pub length: usize,
    /// 1 for a key, 2 for a certificate.
    pub kind: u32,
}

/// The line holds a key.
const KEY: u32 = 1;
/// The line holds a certificate.
const CERTIFICATE: u32 = 2;

/// Answers with the key or the certificate of a line, and its comment, where there is room for
/// them.
///
/// Returns 0, 2 where the room is shorter, 1 if memory ran out, and from 10 to 29 the fault of a
/// line of neither.
pub fn read_text(alloc: Global, text: &str, room: &mut [u8], answer: &mut Line) -> u32
    ensures reads { ReadsContent (HoldsContent text.now) result answer.old answer.new room.old
        room.new }
    ensures fault { TellsLineFault text.now result }
    ensures memory { result ≡ 1 → NeedsLine text.now }
{
    match sshkey_public::read_line::<KeyData>(alloc, text) {
        Ok(read) => write_line(alloc, text, read.1.as_str(), KEY, room, answer),
        Err(error) => {
            let fault = error_status(error);
            if fault == MEMORY {
                return MEMORY;
            }
            read_certificate(alloc, text, fault, room, answer)
        }
    }
}

/// The same of a text that is no line of a key, for that fault.
fn read_certificate(
    alloc: Global,
    text: &str,
    key_fault: u32,
    room: &mut [u8],
    answer: &mut Line,
) -> u32
    requires none { IsNoLine key_name SpellsKey text.now }
    requires fault { (9 < key_fault) × (key_fault < 30) }
    ensures reads { ReadsContent (HoldsContent text.now) result answer.old answer.new room.old
        room.new }
    ensures fault { NumbersKeyFault text.now key_fault → TellsLineFault text.now result }
    ensures memory { result ≡ 1 → NeedsLine text.now }
{
    match sshkey_public::read_line::<Certificate>(alloc, text) {
        Ok(read) => write_line(alloc, text, read.1.as_str(), CERTIFICATE, room, answer),
        Err(error) => fault_of(key_fault, error_status(error)),
    }
}

/// The fault of a line of neither a key nor a certificate: that of a certificate, unless the name
/// in it is none of a certificate.
fn fault_of(of_key: u32, of_certificate: u32) -> u32
    ensures either { (result ≡ of_key) ⊎ (result ≡ of_certificate) }
    ensures number { result ≡ fault_of_either of_key of_certificate }
    ensures memory { of_certificate ≡ 1 → result ≡ 1 }
{
    if of_certificate == LABEL {
        of_key
    } else {
        of_certificate
    }
}

/// Answers with the content of a line whose comment it is, where there is room for it.
fn write_line(
    alloc: Global,
    text: &str,
    comment: &str,
    kind: u32,
    room: &mut [u8],
    answer: &mut Line,
) -> u32
    ensures { (first blob : List ℕ) → IsLine text.now first blob comment.now → IsBytes blob
        → ReadsContent (λ x. x ≡ content_of kind blob comment.now)
        result answer.old answer.new room.old room.new }
{
    part::answer_with(lay_out_line(alloc, text, comment, kind), room, answer)
}

/// The blob of a line and the comment after it, and where they are.
fn lay_out_line(alloc: Global, text: &str, comment: &str, kind: u32) -> Result<(Vec<u8>, Line)>
    ensures { (first blob : List ℕ) → IsLine text.now first blob comment.now → IsBytes blob
        → IfOk result (λ laid. IsLaidOut line_bytes ArePlaced (content_of kind blob comment.now)
        laid.0.items laid.1) }
{
    let mut content = blob_in(alloc, text, comment.len())?;
    let blob = Part {
        start: 0,
        length: content.len(),
    };
    let comment = add(comment.as_bytes(), &mut content)?;
    let length = content.len();
    Ok((
        content,
        Line {
            blob,
            comment,
            length,
            kind,
        },
    ))
}

/// The blob of a line, in memory that has room for that many bytes after it.
fn blob_in(alloc: Global, text: &str, after: usize) -> Result<Vec<u8>>
    ensures { (first blob comment : List ℕ) → IsLine text.now first blob comment → IsBytes blob
        → IfOk result (λ read. read.items ≡ blob) }
{
    let word = base64_word(text).as_bytes();
    let capacity = decoded_len_estimate(word.len()).saturating_add(after);
    let mut blob = Vec::with_capacity(alloc, capacity)?;
    match STANDARD.decode_vec(word, &mut blob) {
        Ok(()) => Ok(blob),
        Err(_) => Err(Error::Memory),
    }
}

/// The second word of a line.
fn base64_word(text: &str) -> &str
    ensures { (first word comment : List ℕ) → IsCut text.now first word comment
        → result.now ≡ word }
{
    match text.trim_end().split_once(' ') {
        Some(cut) => first_word(cut.1),
        None => "",
    }
}

/// The text up to its first space.
fn first_word(text: &str) -> &str
    ensures { (word comment : List ℕ) → IsWithout space word
        → text.now ≡ word ++ after_space comment → result.now ≡ word }
{
    match text.split_once(' ') {
        Some(cut) => cut.0,
        None => text,
    }
}
