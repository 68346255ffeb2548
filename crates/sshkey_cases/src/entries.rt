//! Questions about entry files and their parts.

use sshkey_authorized_keys::ConfigOpts;
use sshkey_base::{Result, Text};
use sshkey_known_hosts::{HostPatterns, Marker};
use sshkey_public::PublicKey;
use std::alloc::Global;

/// The name of the key's algorithm and its comment, with ` | ` between.
pub(crate) fn key_parts(alloc: Global, key: &PublicKey) -> Result<String> {
    let name = key.key_data().algorithm_name();
    let comment = key.comment();
    Ok(format!(in alloc; "{name} | {comment}")?)
}

/// The parts of an entry of authorized_keys, with ` | ` between.
pub(crate) fn authorized(alloc: Global, line: &str) -> Result<String> {
    authorized_parts(
        alloc,
        &sshkey_authorized_keys::Entry::from_line(alloc, line)?,
    )
}

fn authorized_parts(alloc: Global, entry: &sshkey_authorized_keys::Entry) -> Result<String> {
    let key = key_parts(alloc, entry.public_key())?;
    let options = entry.config_opts();
    Ok(format!(in alloc; "{options} | {key}")?)
}

/// The parts of an entry of known_hosts, with ` | ` between.
pub(crate) fn host(alloc: Global, line: &str) -> Result<String> {
    host_parts(alloc, &sshkey_known_hosts::Entry::from_line(alloc, line)?)
}

pub(crate) fn host_parts(alloc: Global, entry: &sshkey_known_hosts::Entry) -> Result<String> {
    let key = key_parts(alloc, entry.public_key())?;
    let hosts = entry.host_patterns().to_string(alloc)?;
    match entry.marker() {
        None => Ok(format!(in alloc; "no marker | {hosts} | {key}")?),
        Some(marker) => Ok(format!(in alloc; "{marker} | {hosts} | {key}")?),
    }
}

/// Adds an item in brackets.
fn add_item(shown: &mut String, item: &str) -> Result<()> {
    shown.push('[')?;
    shown.push_str(item)?;
    shown.push(']')?;
    Ok(())
}

/// The items of options, each in brackets.
pub(crate) fn options(alloc: Global, text: &str) -> Result<String> {
    let options = ConfigOpts::new(alloc, text)?;
    let mut shown = String::new(alloc);
    for item in options.iter() {
        add_item(&mut shown, item)?;
    }
    Ok(shown)
}

/// The patterns of hosts, each in brackets.
fn patterns(alloc: Global, patterns: &[Text]) -> Result<String> {
    let mut shown = String::new(alloc);
    for pattern in patterns {
        add_item(&mut shown, pattern.as_str())?;
    }
    Ok(shown)
}

/// The patterns of hosts, or the salt and the hash in hexadecimal digits.
pub(crate) fn hosts(alloc: Global, text: &str) -> Result<String> {
    match HostPatterns::from_text(alloc, text)? {
        HostPatterns::Patterns(found) => patterns(alloc, &found),
        HostPatterns::HashedName { salt, hash } => {
            let salt = hex::encode(alloc, salt.as_slice())?;
            let hash = hex::encode(alloc, hash)?;
            Ok(format!(in alloc; "salt {salt}, hash {hash}")?)
        }
    }
}

/// The marker of a text.
pub(crate) fn marker(alloc: Global, text: &str) -> Result<String> {
    let marker = text.parse::<Marker>()?;
    Ok(format!(in alloc; "{marker}")?)
}
