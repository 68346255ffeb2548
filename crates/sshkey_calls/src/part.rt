//! Parts of the caller's room.

ghost use Rattle.std.specs.Prelude.{◌≡◌, ◌++◌, ◌+◌, ◌≤◌, [], length, IfErr, IfOk, OnErr};
ghost use Rattle.std.specs.Vec.{vec_capacity};
ghost use Rattle.sshkey_base.specs.declared.error.Error.TheVariants as wide;
ghost use Rattle.sshkey_model.specs.Parts.{flat};
ghost use Rattle.sshkey_calls.specs.Rooms.{AnswersWith, Fills};
ghost use Rattle.sshkey_calls.specs.Writing.{AddsBeginning, IsNoRoomFor, IsNotAdded};

use crate::number::{DONE, MEMORY, SHORT_BUFFER};
use sshkey_base::{Encode, Error, Result};
use std::alloc::Global;

/// A part of bytes.
#[repr(C)]
#[derive(Clone, Copy, Debug)]
pub struct Part {
    /// How many bytes are before it.
    pub start: usize,
    /// How many bytes it has.
    pub length: usize,
}

/// No bytes yet, with memory for the value's normal form and for that many more. Fails with
/// `Length` exactly where `encoded_len` does, and else only when out of memory.
pub fn with_capacity<T: Encode>(alloc: Global, value: &T, more: usize) -> Result<Vec<u8>>
    ensures empty { IfOk result (λ content. content.items ≡ []) }
    ensures capacity { IfOk result
        (λ content. length (flat (T.normal value.now)) + more ≤ vec_capacity content) }
    ensures refused { IfErr result (IsNoRoomFor (T.normal value.now)) }
{
    let Some(capacity) = value.encoded_len()?.checked_add(more) else {
        return Err(Error::Memory);
    };
    Ok(Vec::with_capacity(alloc, capacity)?)
}

/// Adds the bytes to those that the room is to hold. Fails only when out of memory, and then leaves
/// these as they were.
pub fn add(bytes: &[u8], content: &mut Vec<u8>) -> Result<Part>
    ensures added { IfOk result (λ _. content.new.items ≡ content.old.items ++ bytes.now) }
    ensures start { IfOk result (λ part. part.start ≡ length content.old.items) }
    ensures length { IfOk result (λ part. part.length ≡ length bytes.now) }
    ensures stays { OnErr result (content.new.items ≡ content.old.items) }
    ensures memory { IfErr result (λ e. e ≡ wide.Memory) }
{
    let start = content.len();
    content.extend_from_slice(bytes)?;
    Ok(Part {
        start,
        length: bytes.len(),
    })
}

/// Adds the value's normal form to the bytes that the room is to hold. Fails as `encode` does, with
/// `Length` only where a string in it is too long, and else only when out of memory; then a
/// beginning of it may follow these bytes.
pub fn add_encoded<T: Encode>(value: &T, content: &mut Vec<u8>) -> Result<Part>
    ensures added { IfOk result
        (λ _. content.new.items ≡ content.old.items ++ flat (T.normal value.now)) }
    ensures start { IfOk result (λ part. part.start ≡ length content.old.items) }
    ensures length { IfOk result (λ part. part.length ≡ length (flat (T.normal value.now))) }
    ensures refused { IfErr result (IsNotAdded (T.normal value.now)) }
    ensures begun { OnErr result (AddsBeginning content.old.items (flat (T.normal value.now))
        content.new.items) }
{
    let start = content.len();
    value.encode(content)?;
    Ok(Part {
        start,
        length: content.len() - start,
    })
}

/// Answers with what was laid out: the bytes, at the front of the room where there is room for
/// them, and where their parts are.
///
/// Returns 0; 2 where the room is shorter, which stays as it was; and 1 for an error, which its
/// callers have only for memory: then answer and room stay as they were.
pub fn answer_with<T: Copy>(laid: Result<(Vec<u8>, T)>, room: &mut [u8], answer: &mut T) -> u32
    ensures { AnswersWith laid result answer.old answer.new room.old room.new }
{
    match laid {
        Ok((content, parts)) => {
            *answer = parts;
            if write_to(room, &content) {
                DONE
            } else {
                SHORT_BUFFER
            }
        }
        Err(_) => MEMORY,
    }
}

/// Writes the content to the front of the room, if there is room for it, and else nothing.
pub fn write_to(room: &mut [u8], content: &[u8]) -> bool
    ensures { Fills content.now room.old result room.new }
{
    if room.len() < content.len() {
        return false;
    }
    room[..content.len()].copy_from_slice(content);
    true
}
