//! How a line spells what a question is about.

use hex::FromHexError;
use ssh_key::encoding::Reader;
use ssh_key::{Base64Reader, Error, Fingerprint, Result};
use std::alloc::Global;
use std::io::ErrorKind;

/// The answer to a line that is no question.
pub(crate) const NO_LINE: Error = Error::Io(ErrorKind::InvalidInput);

/// The bytes that the digits spell.
pub(crate) fn bytes(alloc: Global, digits: &str) -> Result<Vec<u8>> {
    match hex::decode(alloc, digits) {
        Ok(bytes) => Ok(bytes),
        Err(FromHexError::OutOfMemory) => Err(Error::Memory),
        Err(_) => Err(NO_LINE),
    }
}

/// The bytes that the second word of a line spells in Base64.
pub(crate) fn blob(alloc: Global, line: &str) -> Result<Vec<u8>> {
    let Some(word) = line.split(' ').nth(1) else {
        return Err(NO_LINE);
    };
    let mut reader = Base64Reader::new(word)?;
    let mut bytes = vec![in alloc; 0; reader.remaining_len()]?;
    reader.read(&mut bytes)?;
    Ok(bytes)
}

/// The text that the digits spell.
pub(crate) fn text(alloc: Global, digits: &str) -> Result<String> {
    match String::from_utf8(bytes(alloc, digits)?) {
        Ok(text) => Ok(text),
        Err(_) => Err(NO_LINE),
    }
}

/// The texts that the digits spell, with commas between.
pub(crate) fn texts(alloc: Global, words: &str) -> Result<Vec<String>> {
    let mut found = Vec::new(alloc);
    for digits in words.split(',') {
        found.push(text(alloc, digits)?)?;
    }
    Ok(found)
}

/// The number that the digits spell.
pub(crate) fn number(digits: &str) -> Result<u64> {
    match digits.parse::<u64>() {
        Ok(number) => Ok(number),
        Err(_) => Err(NO_LINE),
    }
}

/// The number of bits that the digits spell.
pub(crate) fn least_bits(digits: &str) -> Result<u32> {
    match digits.parse::<u32>() {
        Ok(bits) => Ok(bits),
        Err(_) => Err(NO_LINE),
    }
}

/// The fingerprints with spaces between.
pub(crate) fn fingerprints(alloc: Global, text: &str) -> Result<Vec<Fingerprint>> {
    let mut found = Vec::new(alloc);
    for word in text.split(' ') {
        if !word.is_empty() {
            found.push(word.parse::<Fingerprint>()?)?;
        }
    }
    Ok(found)
}

/// The names with commas between.
pub(crate) fn names(alloc: Global, text: &str) -> Result<Vec<String>> {
    let mut found = Vec::new(alloc);
    for word in text.split(',') {
        if !word.is_empty() {
            found.push(String::from_str(alloc, word)?)?;
        }
    }
    Ok(found)
}

/// The name of a host; an empty word where none was found.
pub(crate) fn host_name(alloc: Global, word: &str) -> Result<Option<String>> {
    if word.is_empty() {
        return Ok(None);
    }
    Ok(Some(String::from_str(alloc, word)?))
}
