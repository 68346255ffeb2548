//! The option `from` of authorized_keys.

ghost use Rattle.std.specs.Prelude.{◌≡◌, ◌↔◌, ◌⊎◌, IsTrue, MatchOption, slice_index};
ghost use Rattle.std.specs.declared.net.ip_addr.IpAddr.{IpAddr};
ghost use Rattle.std.specs.Char.{to_ascii_lowercase};
ghost use Rattle.std.specs.Net.Addr.{IsIpv4Mapped, ipv6_segments};
ghost use Rattle.sshkey_matching.specs.Patterns.{Matches, exclamation_mark, unmarked};
ghost use Rattle.sshkey_matching.specs.FromLists.{Client, DecidesFrom, DecidesFromAt, DecidesPieces, IsClientText, IsIpv4Compatible, IsSeen, IsFor, IsFromPattern, IsFromPiece, IsHostName, Names, Refuses};

use crate::likeness::{is_like_address, is_plain_pattern};
use crate::network::covers;
use crate::source_address::{is_but_not, seen, split_piece};
use crate::{LetterCase, matches_pattern};
use std::alloc::Global;
use std::net::{IpAddr, Ipv6Addr};

/// Why `from_allows` decides nothing: refuse the login, and let no other entry count.
#[derive(Clone, Copy, Debug, PartialEq, Eq, thiserror::Error)]
pub enum FromFault {
    /// The text is not that of an address, or of one whose text may be another to sshd(8): it writes
    /// `::ffff:10.1.2.3` as 10.1.2.3, `fe80::1` with its scope, and an address of `::/96` beyond
    /// `::` and `::1` as `::10.1.2.3`, which is `::a01:203` by RFC 5952.
    #[error("address whose text may be another")]
    Address,
    /// The host's name is like an address: sshd(8) passes over such a name. Pass `None`.
    #[error("host's name is like an address")]
    Host,
    /// The list is not well-formed.
    #[error("malformed list of addresses and patterns")]
    List,
    /// Memory ran out, which `from_allows` never says.
    #[error("out of memory")]
    Memory,
}

/// Whether the list, the value of `from` (sshd(8), "AUTHORIZED_KEYS FILE FORMAT"), lets a client in.
/// After `Ok(false)` another entry of the key may, as in sshd(8). Does not allocate.
///
/// Fails with `Address`, then with `Host`, and last with `List`. sshd(8) may let the client in by
/// such a list, and bind the login by the entry's other options: so refuse the login then, and let
/// no other entry count.
///
/// The list is networks and patterns with commas between, a `!` in front of some. It lets a client
/// in if one without a `!` is for the client, and none with one is. A network is for its addresses;
/// a pattern for an address whose text it matches, letters in their own case, and for a host whose
/// name it matches, letters in either case.
///
/// `address` is the text of the client's address as `Display` of `IpAddr` writes it, or
/// getnameinfo(3) with `NI_NUMERICHOST`. `host` is the name that was found for it (`UseDNS`); with
/// `None` the text stands for it, as in sshd(8) by its defaults.
///
/// Stricter than sshd(8): a list is malformed if a piece is like an address or a network, and is
/// none by RFC 4291 or as four decimal numbers: `010.0.0.0/8`, `10.1`, `fe80::1%eth0`, also
/// `10.0.0.0/129`, which sshd(8) takes for a pattern, so that there `!10.0.0.0/129,*` lets everybody
/// in. It is too if a pattern has another character than letters, digits, `-`, `.`, `_`, `:`, `*`
/// and `?`: there a blank in `!10.1.2.3 ,*` does the same. It is so wherever the piece stands.
pub fn from_allows(list: &str, host: Option<&str>, address: &str) -> Result<bool, FromFault>
    ensures { DecidesFrom list.now host.entry address.now result }
{
    let Some(ip) = client_address(address) else {
        return Err(FromFault::Address);
    };
    if !is_host_name(host) {
        return Err(FromFault::Host);
    }
    let host = host.unwrap_or(address);
    match check_pieces(list, ip, address, host) {
        Some(lets) => Ok(lets),
        None => Err(FromFault::List),
    }
}

/// What `from_allows` says of a client at the address, whose text this writes (RFC 5952): the
/// address of the client's socket. `::ffff:10.1.2.3`, as a socket for IPv6 shows it, is 10.1.2.3.
/// Also fails with `Memory`.
pub fn from_allows_at(
    alloc: Global,
    list: &str,
    host: Option<&str>,
    address: IpAddr,
) -> Result<bool, FromFault>
    ensures { DecidesFromAt list.now host.entry address result }
{
    let seen = seen(address);
    let Ok(text) = seen.to_string(alloc) else {
        return Err(FromFault::Memory);
    };
    from_allows(list, host, text.as_str())
}

/// Whether the name, if there is one, is like no address.
fn is_host_name(host: Option<&str>) -> bool
    ensures { IsTrue result ↔ IsHostName host.entry }
{
    match host {
        Some(host) => !is_like_address(host.as_bytes()),
        None => true,
    }
}

/// The address that the text writes, as sshd(8) sees that of a client.
fn client_address(text: &str) -> Option<IpAddr>
    ensures { MatchOption result ((a : IpAddr) → IsClientText text.now a → ⊥)
        (λ a. IsClientText text.now a) }
{
    let Ok(ip) = text.parse::<IpAddr>() else {
        return None;
    };
    if !is_seen(ip) {
        return None;
    }
    Some(ip)
}

/// Whether sshd(8) sees a client at that address, with no scope.
fn is_seen(address: IpAddr) -> bool
    ensures { IsTrue result ↔ IsSeen address }
{
    match address {
        IpAddr::V4(_) => true,
        IpAddr::V6(address) => {
            !is_ipv4_mapped(&address)
                && !address.is_unicast_link_local()
                && !is_ipv4_compatible(&address)
        }
    }
}

fn is_ipv4_mapped(address: &Ipv6Addr) -> bool
    ensures { IsTrue result ↔ IsIpv4Mapped (ipv6_segments address.now) }
{
    address.to_ipv4_mapped().is_some()
}

/// Whether the address is one of `::/96` beyond `::` and `::1`.
pub(crate) fn is_ipv4_compatible(address: &Ipv6Addr) -> bool
    ensures { IsTrue result ↔ IsIpv4Compatible address.now }
{
    let number = address.to_bits();
    1 < number && number < 1 << 32
}

/// Whether the list lets the client in; `None` if it is not well-formed.
fn check_pieces(list: &str, ip: IpAddr, text: &str, host: &str) -> Option<bool>
    ensures { DecidesPieces list.now
        (record { address = ip; text = text.now; host = host.now }) result }
{
    let mut is_named = false;
    let mut is_refused = false;
    let mut rest = list;
    'pieces: loop {
        let (piece, more) = split_piece(rest);
        let Some((names, refuses)) = check_piece(piece, ip, text, host) else {
            return None;
        };
        is_named |= names;
        is_refused |= refuses;
        let Some(next) = more else {
            return Some(is_but_not(is_named, is_refused));
        };
        rest = next;
    }
}

/// Whether the piece names the client, and whether it refuses it; `None` if it is no piece of a list.
fn check_piece(piece: &str, ip: IpAddr, text: &str, host: &str) -> Option<(bool, bool)>
    ensures { let c : Client = record { address = ip; text = text.now; host = host.now } in
        MatchOption result (IsFromPiece piece.now → ⊥)
        (λ x. IsFromPiece piece.now × (IsTrue x.0 ↔ Names c piece.now)
        × (IsTrue x.1 ↔ Refuses c piece.now)) }
{
    let (is_negated, pattern) = split_mark(piece);
    let Some(is_for) = check_pattern(pattern, ip, text, host) else {
        return None;
    };
    if is_negated {
        Some((false, is_for))
    } else {
        Some((is_for, false))
    }
}

/// Whether a `!` stands in front of the piece, and what is left without it.
fn split_mark(piece: &str) -> (bool, &str)
    ensures mark { IsTrue result.0 ↔ (slice_index piece.now 0 ≡ exclamation_mark) }
    ensures pattern { result.1.now ≡ unmarked piece.now }
{
    match piece.strip_prefix('!') {
        Some(pattern) => (true, pattern),
        None => (false, piece),
    }
}

/// Whether the network or the pattern is for the client; `None` if it is neither.
fn check_pattern(pattern: &str, ip: IpAddr, text: &str, host: &str) -> Option<bool>
    ensures { let c : Client = record { address = ip; text = text.now; host = host.now } in
        MatchOption result (IsFromPattern pattern.now → ⊥)
        (λ yes. IsFromPattern pattern.now × (IsTrue yes ↔ IsFor c pattern.now)) }
{
    match covers(pattern, ip) {
        Some(is_covered) => Some(is_covered || matches(pattern, text, host)),
        None => {
            if is_plain_pattern(pattern) {
                Some(matches(pattern, text, host))
            } else {
                None
            }
        }
    }
}

fn matches(pattern: &str, text: &str, host: &str) -> bool
    ensures { IsTrue result ↔ (Matches (λ x. x) pattern.now text.now
        ⊎ Matches to_ascii_lowercase pattern.now host.now) }
{
    matches_pattern(text, pattern, LetterCase::Sensitive)
        || matches_pattern(host, pattern, LetterCase::Insensitive)
}
