//! The critical option `source-address` of a certificate.

ghost use Rattle.std.specs.Prelude.{◌↔◌, IsTrue};
ghost use Rattle.sshkey_matching.specs.SourceAddresses.{ComesFrom, DecidesSource, FindsAddress, IsLinkLocal, IsNetworks, IsSeenAs, MayComeFrom, SplitsPiece};

use crate::malformed::Malformed;
use crate::network::covers;
use std::net::{IpAddr, Ipv4Addr};

/// Whether the list, the value of `source-address` (PROTOCOL.certkeys), has the client's address.
/// Refuse the login unless it is `Ok(true)`. Does not allocate.
///
/// The list is networks with commas between, as `10.0.0.0/8,2001:db8::/32`. It is `Err` exactly if
/// one of them is none, also if it stands after one that has the address, as in sshd(8). An
/// address `::ffff:10.1.2.3`, as a socket for IPv6 shows an IPv4 client, is 10.1.2.3.
///
/// An address of one link alone, as `fe80::1%eth0`, is in no network, as in sshd(8), which sees it
/// with its scope.
pub fn source_address_allows(list: &str, address: IpAddr) -> Result<bool, Malformed>
    ensures { DecidesSource list.now address result }
{
    let seen = seen(address);
    match has_address(list, seen) {
        Some(has) => Ok(is_but_not(has, is_link_local(seen))),
        None => Err(Malformed),
    }
}

/// Whether sshd(8) reads the list: each piece is a network. Does not allocate.
pub fn is_source_list(list: &str) -> bool
    ensures { IsTrue result ↔ IsNetworks list.now }
{
    has_address(list, IpAddr::V4(Ipv4Addr::UNSPECIFIED)).is_some()
}

/// Whether a client may come from the address by the value of `source-address`, if there is one:
/// from any where there is none, and from none where the list is not well-formed. Does not
/// allocate.
pub fn may_come_from(list: Option<&str>, address: IpAddr) -> bool
    ensures { IsTrue result ↔ MayComeFrom list.entry address }
{
    match list {
        Some(list) => is_allowed(list, address),
        None => true,
    }
}

fn is_allowed(list: &str, address: IpAddr) -> bool
    ensures { IsTrue result ↔ (IsNetworks list.now × ComesFrom list.now address) }
{
    match source_address_allows(list, address) {
        Ok(allows) => allows,
        Err(_) => false,
    }
}

/// Whether one is so and the other is not.
pub(crate) fn is_but_not(one: bool, other: bool) -> bool
    ensures { IsTrue result ↔ (IsTrue one × (IsTrue other → ⊥)) }
{
    one && !other
}

/// Whether one of the list's networks has the address; `None` if it is not well-formed.
fn has_address(list: &str, address: IpAddr) -> Option<bool>
    ensures { FindsAddress list.now address result }
{
    let mut has = false;
    let mut rest = list;
    'pieces: loop {
        let (piece, more) = split_piece(rest);
        let Some(is_covered) = covers(piece, address) else {
            return None;
        };
        has |= is_covered;
        let Some(next) = more else {
            return Some(has);
        };
        rest = next;
    }
}

/// Whether it is an address of one link alone, fe80::/10: sshd(8) sees that of a client with a scope
/// (`fe80::1%eth0`), and takes it to be in no network.
pub(crate) fn is_link_local(address: IpAddr) -> bool
    ensures { IsTrue result ↔ IsLinkLocal address }
{
    match address {
        IpAddr::V4(_) => false,
        IpAddr::V6(address) => address.is_unicast_link_local(),
    }
}

/// The address as sshd(8) sees it.
pub(crate) fn seen(address: IpAddr) -> IpAddr
    ensures { IsSeenAs address result }
{
    address.to_canonical()
}

/// A list up to its first comma, or all of it, and what follows that comma.
pub(crate) fn split_piece(list: &str) -> (&str, Option<&str>)
    ensures { SplitsPiece list.now result.0.now result.1 }
{
    match list.split_once(',') {
        Some((piece, rest)) => (piece, Some(rest)),
        None => (list, None),
    }
}
