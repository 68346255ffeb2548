//! Questions about the hosts that an entry of known_hosts is for, and what is said of their keys.

use crate::bytes::{NO_LINE, part, text};
use sshkey_base::{Result, Text};
use sshkey_known_hosts::{Entry, HmacSha1, HostPatterns, Marker, authorities, key_verdict};
use sshkey_public::PublicKey;
use std::alloc::Global;

/// A port, in decimal.
fn port_of(parts: &[Vec<u8>], place: usize) -> Result<u16> {
    text(parts, place)?.parse::<u16>().map_err(|_| NO_LINE)
}

/// Whether hosts are for a host at a port: `yes` or `no`.
pub(crate) fn are_for(alloc: Global, parts: &[Vec<u8>]) -> Result<String> {
    let hosts = HostPatterns::from_text(alloc, text(parts, 0)?)?;
    let is_for = hosts.matches(alloc, text(parts, 1)?, port_of(parts, 2)?, &HmacSha1)?;
    Ok(String::from_str(alloc, if is_for { "yes" } else { "no" })?)
}

/// The verdict of a text on the key in a line, of a host at a port.
pub(crate) fn judged(alloc: Global, parts: &[Vec<u8>]) -> Result<String> {
    let key = PublicKey::from_openssh(alloc, text(parts, 3)?)?;
    let found = key_verdict(
        alloc,
        part(parts, 0),
        text(parts, 1)?,
        port_of(parts, 2)?,
        key.key_data(),
        &HmacSha1,
    )?;
    Ok(format!(in alloc; "{found:?}")?)
}

/// The comments of the keys of a host's authorities, each in brackets.
pub(crate) fn authorities_of(alloc: Global, parts: &[Vec<u8>]) -> Result<String> {
    let keys = authorities(
        alloc,
        part(parts, 0),
        text(parts, 1)?,
        port_of(parts, 2)?,
        &HmacSha1,
    )?;
    let mut shown = String::new(alloc);
    for key in &keys {
        let comment = key.comment();
        shown.push_str(&format!(in alloc; "[{comment}]")?)?;
    }
    Ok(shown)
}

/// A marker, or none for no text.
fn marker_of(text: &str) -> Result<Option<Marker>> {
    if text.is_empty() {
        return Ok(None);
    }
    Ok(Some(text.parse::<Marker>()?))
}

/// The patterns that the fourth byte string is, and those after it.
fn patterns_of(alloc: Global, parts: &[Vec<u8>]) -> Result<Vec<Text>> {
    let mut patterns = Vec::new(alloc);
    for part in parts.iter().skip(3) {
        let pattern = std::str::from_utf8(part)?;
        patterns.push(Text::new(String::from_str(alloc, pattern)?))?;
    }
    Ok(patterns)
}

/// The key of a line, with another comment.
fn key_with(alloc: Global, line: &str, comment: &str) -> Result<PublicKey> {
    let comment = String::from_str(alloc, comment)?;
    let mut key = PublicKey::from_openssh(alloc, line)?;
    key.set_comment(comment);
    Ok(key)
}

/// The line of an entry of a marker or none, hosts whose patterns are the fourth byte string and
/// those after it, and the key of a line, with that comment.
pub(crate) fn made(alloc: Global, parts: &[Vec<u8>]) -> Result<String> {
    let marker = marker_of(text(parts, 0)?)?;
    let (line, comment) = (text(parts, 1)?, text(parts, 2)?);
    let patterns = patterns_of(alloc, parts)?;
    let key = key_with(alloc, line, comment)?;
    Entry::new(alloc, marker, HostPatterns::Patterns(patterns), key)?.to_string(alloc)
}
