//! How a line spells bytes: words with a space between, one after the other.
//!
//! - `09a3` is these bytes, and `09a3*4` four times these bytes
//! - `"text"` is the text in UTF-8, in which no space stands
//! - `base64:AAAA` is what the padded Base64 stands for
//! - `[` before a word and `]` after the same or a later one box what stands between: a length of
//!   four bytes comes first
//! - `,` ends the first byte string and begins the next

use base64::DecodeAllocError;
use base64::engine::general_purpose::STANDARD;
use hex::FromHexError;
use sshkey_base::{Error, Result, erase_slice};
use std::alloc::Global;
use std::io::ErrorKind;

/// The answer to a line that is none of the table. No question has it.
pub(crate) const NO_LINE: Error = Error::Io(ErrorKind::InvalidInput);

/// The byte strings that the words spell.
pub(crate) fn parts(alloc: Global, words: &str) -> Result<Vec<Vec<u8>>> {
    let mut parts = vec![in alloc; Vec::new(alloc)]?;
    for word in words.split(' ') {
        if word == "," {
            parts.push(Vec::new(alloc))?;
        } else {
            add_word(alloc, word, &mut parts)?;
        }
    }
    Ok(parts)
}

/// Adds a word to the last byte string. Each box that is open is one more byte string.
fn add_word(alloc: Global, word: &str, parts: &mut Vec<Vec<u8>>) -> Result<()> {
    let inner = word.trim_start_matches('[');
    for _ in inner.len()..word.len() {
        parts.push(Vec::new(alloc))?;
    }
    let piece = inner.trim_end_matches(']');
    if let Some(last) = parts.last_mut() {
        add_piece(alloc, piece, last)?;
    }
    for _ in piece.len()..inner.len() {
        close_box(parts)?;
    }
    Ok(())
}

/// Adds the last byte string to the one before it, in a box.
fn close_box(parts: &mut Vec<Vec<u8>>) -> Result<()> {
    let Some(inner) = parts.pop() else {
        return Err(NO_LINE);
    };
    let Some(outer) = parts.last_mut() else {
        return Err(NO_LINE);
    };
    let Ok(len) = u32::try_from(inner.len()) else {
        return Err(NO_LINE);
    };
    outer.extend_from_slice(&len.to_be_bytes())?;
    outer.extend_from_slice(&inner)?;
    Ok(())
}

/// Adds the bytes of a text, of Base64 or of digits.
fn add_piece(alloc: Global, piece: &str, bytes: &mut Vec<u8>) -> Result<()> {
    if let Some(text) = piece.strip_prefix('"') {
        bytes.extend_from_slice(text.trim_end_matches('"').as_bytes())?;
    } else if let Some(word) = piece.strip_prefix("base64:") {
        bytes.extend_from_slice(&of_base64(alloc, word)?)?;
    } else {
        let (digits, count) = piece.split_once('*').unwrap_or((piece, "1"));
        let mut once = of_digits(alloc, digits)?;
        for _ in 0..count.parse::<u8>().unwrap_or(0) {
            bytes.extend_from_slice(&once)?;
        }
        erase_slice(&mut once);
    }
    Ok(())
}

fn of_base64(alloc: Global, word: &str) -> Result<Vec<u8>> {
    match STANDARD.decode(alloc, word.as_bytes()) {
        Ok(bytes) => Ok(bytes),
        Err(DecodeAllocError::OutOfMemory) => Err(Error::Memory),
        Err(_) => Err(NO_LINE),
    }
}

fn of_digits(alloc: Global, digits: &str) -> Result<Vec<u8>> {
    match hex::decode(alloc, digits) {
        Ok(bytes) => Ok(bytes),
        Err(FromHexError::OutOfMemory) => Err(Error::Memory),
        Err(_) => Err(NO_LINE),
    }
}

/// Writes zeros over the byte strings: `checks/secrets` looks in memory for what else is left.
pub(crate) fn erase(parts: &mut [Vec<u8>]) {
    for bytes in parts {
        erase_slice(bytes);
    }
}

/// The byte string of that place, and none of it where it is missing.
pub(crate) fn part(parts: &[Vec<u8>], place: usize) -> &[u8] {
    match parts.get(place) {
        Some(bytes) => bytes.as_slice(),
        None => &[],
    }
}

/// The byte string of that place as a text.
pub(crate) fn text(parts: &[Vec<u8>], place: usize) -> Result<&str> {
    Ok(std::str::from_utf8(part(parts, place))?)
}
