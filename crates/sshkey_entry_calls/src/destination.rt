//! A host and a port in a text.

ghost use Rattle.sshkey_entries.specs.Answers.{IsTheOne};
ghost use Rattle.sshkey_entry_calls.specs.Destinations.{IsDestination, IsInBrackets, IsPlain, destination_of};

use crate::numbers::read_port;
use sshkey_calls::Part;

/// Where a host stands in a text, and its port.
#[repr(C)]
#[derive(Clone, Copy, Debug)]
pub struct HostAndPort {
    /// The host, without brackets.
    pub host: Part,
    /// The port; 0 where none stands there.
    pub port: u16,
}

/// The host of `[host]:port`, `host:port`, `[host]` or a host alone, without its brackets, and the
/// port, if one stands there. Digits write it, from 1 to 65,535. A text without brackets and with
/// several colons is a host alone, as an address of IPv6 is. `None` where a bracket or a colon is
/// followed by anything else. Does not allocate.
pub fn read_destination(text: &str) -> Option<(&str, Option<u16>)>
    ensures { IsTheOne destination_of (IsDestination text.now) result }
{
    match text.strip_prefix('[') {
        Some(inside) => read_bracketed(inside),
        None => read_plain(text),
    }
}

/// What stands before the first `]`, and the port that may follow it.
fn read_bracketed(inside: &str) -> Option<(&str, Option<u16>)>
    ensures { IsTheOne destination_of (IsInBrackets inside.now) result }
{
    let Some((host, after)) = inside.split_once(']') else {
        return None;
    };
    if after.is_empty() {
        return Some((host, None));
    }
    let Some(port) = after.strip_prefix(':') else {
        return None;
    };
    let Some(port) = read_port(port) else {
        return None;
    };
    Some((host, Some(port)))
}

/// What stands before the one colon and after it, or all.
fn read_plain(text: &str) -> Option<(&str, Option<u16>)>
    ensures { IsTheOne destination_of (IsPlain text.now) result }
{
    let Some((host, port)) = text.split_once(':') else {
        return Some((text, None));
    };
    if port.contains(':') {
        return Some((text, None));
    }
    let Some(port) = read_port(port) else {
        return None;
    };
    Some((host, Some(port)))
}
