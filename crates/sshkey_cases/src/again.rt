//! Calls that are made again where memory was refused: what they were lent has to be as before.

use crate::bytes::{part, text};
use sshkey_authorized_keys::AuthorizedKeys;
use sshkey_base::{Error, Result, decode_whole, encode_vec};
use sshkey_cert_values::OptionsMap;
use sshkey_known_hosts::KnownHosts;
use std::alloc::Global;

/// What is written of the options that the first byte string spells, with that value under that
/// name.
pub(crate) fn insert(alloc: Global, parts: &[Vec<u8>]) -> Result<String> {
    let mut options: OptionsMap = decode_whole(alloc, part(parts, 0))?;
    let refused = set_at_last(alloc, &mut options, parts)?;
    let written = encode_vec(alloc, &options)?;
    let digits = hex::encode(alloc, &written)?;
    Ok(format!(in alloc; "{refused}{digits}")?)
}

/// Sets the value, and where memory is refused once more. Says whether it was refused, and whether
/// that changed something.
fn set_at_last(alloc: Global, options: &mut OptionsMap, parts: &[Vec<u8>]) -> Result<&'static str> {
    let before = options.try_clone(alloc)?;
    match set(alloc, options, parts) {
        Ok(()) => Ok(""),
        Err(Error::Memory) => {
            let is_same = *options == before;
            set(alloc, options, parts)?;
            Ok(if is_same {
                "out of memory, then "
            } else {
                "changed, then "
            })
        }
        Err(error) => Err(error),
    }
}

fn set(alloc: Global, options: &mut OptionsMap, parts: &[Vec<u8>]) -> Result<()> {
    let name = String::from_str(alloc, text(parts, 1)?)?;
    let value = String::from_str(alloc, text(parts, 2)?)?;
    options.insert(name, value)?;
    Ok(())
}

/// The comments of the keys in a text of authorized_keys, or why an entry is refused, with `; `
/// between.
pub(crate) fn each_key(alloc: Global, text: &str) -> Result<String> {
    let mut shown = String::new(alloc);
    for entry in AuthorizedKeys::new(alloc, text) {
        let said = comment_of_key(alloc, entry)?;
        add(&mut shown, &said)?;
    }
    Ok(shown)
}

fn comment_of_key(alloc: Global, entry: Result<sshkey_authorized_keys::Entry>) -> Result<String> {
    match entry {
        Ok(entry) => Ok(entry.public_key().comment().to_string(alloc)?),
        Err(error) => Ok(error.to_string(alloc)?),
    }
}

/// The comments of the keys in a text of known_hosts, or why an entry is refused, with `; `
/// between.
pub(crate) fn each_host(alloc: Global, text: &str) -> Result<String> {
    let mut shown = String::new(alloc);
    for entry in KnownHosts::new(alloc, text) {
        let said = comment_of_host(alloc, entry)?;
        add(&mut shown, &said)?;
    }
    Ok(shown)
}

fn comment_of_host(alloc: Global, entry: Result<sshkey_known_hosts::Entry>) -> Result<String> {
    match entry {
        Ok(entry) => Ok(entry.public_key().comment().to_string(alloc)?),
        Err(error) => Ok(error.to_string(alloc)?),
    }
}

/// Adds a text, after `; ` if it is not the first.
pub(crate) fn add(shown: &mut String, said: &str) -> Result<()> {
    if !shown.is_empty() {
        shown.push_str("; ")?;
    }
    shown.push_str(said)?;
    Ok(())
}
