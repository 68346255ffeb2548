//! Where ports may be forwarded to, and where may be listened.

ghost use Rattle.std.specs.Prelude.{◌+◌, ◌<◌, length, IfOk};
ghost use Rattle.sshkey_entries.specs.Answers.{IsTheOne, Tells};
ghost use Rattle.login_terms.specs.Values.{IsHostAndPort, IsInBrackets, IsPermitListen, IsPermitOpen, IsPlainHost, IsPort, MayBeListen, MayBePermit, MayBePort, SplitsHost, parts_of, permit_of};

use crate::numbers::read_number;
use sshkey_entries::Reading;
use std::alloc::{AllocError, Global};

/// The least number of bytes that is too long for a host's name (NI_MAXHOST of getnameinfo(3)).
const TOO_LONG: usize = 1025;

/// The greatest port.
const MOST: u32 = 65_535;

/// A host and a port.
#[derive(Debug, Drop)]
pub struct Permit {
    /// The host, without brackets; it may be empty, and `*` where any address may be listened at.
    pub host: String,
    /// The port, or any.
    pub port: Option<u16>,
}

/// The value of `permitopen`: a host, a colon and a port.
pub(crate) fn read_permit_open(alloc: Global, text: &str) -> Result<Reading<Permit>, AllocError>
    ensures { IfOk result (Tells permit_of (IsPermitOpen text.now) (MayBePermit text.now)) }
{
    if text.contains('/') {
        return Ok(Reading::Unclear);
    }
    match split_host(text) {
        Some((host, port)) => permit_at(alloc, host, port),
        None => Ok(Reading::Rejected),
    }
}

/// The value of `permitlisten`: the same, or a port alone.
pub(crate) fn read_permit_listen(alloc: Global, text: &str) -> Result<Reading<Permit>, AllocError>
    ensures { IfOk result (Tells permit_of (IsPermitListen text.now) (MayBeListen text.now)) }
{
    if text.contains(':') {
        return read_permit_open(alloc, text);
    }
    permit_at(alloc, "*", text)
}

/// The host with the port that a text writes.
fn permit_at(alloc: Global, host: &str, port: &str) -> Result<Reading<Permit>, AllocError>
    ensures { IfOk result (Tells permit_of (IsHostAndPort host.now port.now) (MayBePort port.now)) }
{
    match read_port(port) {
        Reading::Is(port) => Ok(Reading::Is(Permit {
            host: String::from_str(alloc, host)?,
            port,
        })),
        Reading::Rejected => Ok(Reading::Rejected),
        Reading::Unclear => Ok(Reading::Unclear),
    }
}

/// A port from 1 on in digits, or any, for which `*` stands.
fn read_port(text: &str) -> Reading<Option<u16>>
    ensures { Tells (λ p. p) (IsPort text.now) (MayBePort text.now) result }
{
    if text == "*" {
        return Reading::Is(None);
    }
    let Some(number) = read_number(text) else {
        return Reading::Unclear;
    };
    if number == 0 || number > MOST {
        return Reading::Rejected;
    }
    Reading::Is(Some(number as u16))
}

/// A host, in brackets or without, and what follows its colon.
fn split_host(text: &str) -> Option<(&str, &str)>
    ensures { IsTheOne parts_of (SplitsHost text.now) result }
{
    match text.strip_prefix('[') {
        Some(inside) => split_bracketed(inside),
        None => split_plain(text),
    }
}

/// What stands before the first `]`, and after the colon that follows it.
fn split_bracketed(inside: &str) -> Option<(&str, &str)>
    ensures { IsTheOne parts_of
        (λ p. IsInBrackets inside.now p.0 p.1 × (length p.0 + 2 < 1025)) result }
{
    let Some((host, after)) = inside.split_once(']') else {
        return None;
    };
    let Some(port) = after.strip_prefix(':') else {
        return None;
    };
    if host.len() >= TOO_LONG - 2 {
        return None;
    }
    Some((host, port))
}

/// What stands before the first colon, and after it.
fn split_plain(text: &str) -> Option<(&str, &str)>
    ensures { IsTheOne parts_of
        (λ p. IsPlainHost text.now p.0 p.1 × (length p.0 < 1025)) result }
{
    let Some((host, port)) = text.split_once(':') else {
        return None;
    };
    if host.len() >= TOO_LONG {
        return None;
    }
    Some((host, port))
}
