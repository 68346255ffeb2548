//! Questions about where a client may come from.

use crate::bytes::{NO_LINE, text};
use sshkey_base::{Error, Result};
use sshkey_matching::{
    FromFault, from_allows, from_allows_at, is_source_list, may_come_from, source_address_allows,
};
use std::alloc::Global;
use std::net::IpAddr;

/// The address that the second byte string writes.
fn address_of(parts: &[Vec<u8>]) -> Result<IpAddr> {
    text(parts, 1)?.parse::<IpAddr>().map_err(|_| NO_LINE)
}

/// The name of the host, if it is asked about.
fn host_of(parts: &[Vec<u8>]) -> Result<Option<&str>> {
    if parts.len() < 3 {
        return Ok(None);
    }
    Ok(Some(text(parts, 2)?))
}

fn shown(allows: bool) -> &'static str {
    if allows { "in" } else { "out" }
}

/// What the list of a certificate says of an address: `in`, `out` or `malformed`.
pub(crate) fn source(alloc: Global, parts: &[Vec<u8>]) -> Result<String> {
    let (list, address) = (text(parts, 0)?, address_of(parts)?);
    let answer = source_address_allows(list, address);
    let is_same = is_source_list(list) == answer.is_ok()
        && may_come_from(Some(list), address) == (answer == Ok(true));
    let said = match answer {
        _ if !is_same => "the calls differ",
        Ok(allows) => shown(allows),
        Err(_) => "malformed",
    };
    Ok(String::from_str(alloc, said)?)
}

/// What the list of a line says of the text of an address, and of a host's name: `in`, `out`, or
/// what is no such text.
pub(crate) fn from(alloc: Global, parts: &[Vec<u8>]) -> Result<String> {
    let answer = from_allows(text(parts, 0)?, host_of(parts)?, text(parts, 1)?);
    shown_from(alloc, answer)
}

/// The same of an address.
pub(crate) fn from_at(alloc: Global, parts: &[Vec<u8>]) -> Result<String> {
    let address = address_of(parts)?;
    let answer = from_allows_at(alloc, text(parts, 0)?, host_of(parts)?, address);
    shown_from(alloc, answer)
}

fn shown_from(alloc: Global, answer: std::result::Result<bool, FromFault>) -> Result<String> {
    let said = match answer {
        Ok(allows) => shown(allows),
        Err(FromFault::Address) => "address",
        Err(FromFault::Host) => "host",
        Err(FromFault::List) => "malformed",
        Err(FromFault::Memory) => return Err(Error::Memory),
    };
    Ok(String::from_str(alloc, said)?)
}

/// Whether a list of a certificate and one of a line let an address in.
pub(crate) fn is_allowed(parts: &[Vec<u8>]) -> Result<bool> {
    let (list, address) = (text(parts, 0)?, address_of(parts)?);
    Ok(
        source_address_allows(list, address) == Ok(true)
            && may_come_from(Some(list), address)
            && is_source_list(list)
            && from_allows(list, host_of(parts)?, text(parts, 1)?) == Ok(true),
    )
}
