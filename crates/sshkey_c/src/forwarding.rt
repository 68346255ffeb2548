//! Where a grant that was written to the caller's room lets ports be forwarded.

ghost use Rattle.std.specs.Prelude.{◌≡◌, ◌≢◌, ◌⊎◌, ◌↔◌, ◌<◌, [], List, ℕ, Option, Some, IfSome, IsTrue, length};
ghost use Rattle.std.specs.List.{AllByRecursion, Any};
ghost use Rattle.std.specs.Str.{IsUtf8};
ghost use Rattle.login_terms.specs.Questions.{MayListen, MayOpen};
ghost use Rattle.login_terms.specs.Options.{Terms};
ghost use Rattle.login_terms.specs.Values.{HostAndPort};
ghost use Rattle.sshkey_calls.specs.Rooms.{IsPartOf, bytes_of};
ghost use Rattle.sshkey_c.specs.Grants.{BeginsWithPlace, HasPlaces, IsFor, IsPlace, IsWord, permit_strings, port_bytes, to_listen, to_open};

use crate::grant::GrantParts;
use login_terms::{listens, opens};
use sshkey_calls::Part;
use sshkey_calls::number::{DONE, TEXT};
use sshkey_terms::{split_string, split_text};
use std::str;

/// The grant does not permit it.
const NOT_PERMITTED: u32 = 97;

/// Whether the client may have a port forwarded to that host and port ("direct-tcpip" of RFC 4254,
/// section 7.2), by a grant whose bytes stand in that room (`login_terms::Terms::may_open`).
///
/// Returns 0 if it may, 4 for a host that is not UTF-8, and else 97: so too where the room does not
/// have the bytes. Does not allocate.
#[unsafe(no_mangle)]
pub extern "C" fn raf_may_open(grant: &GrantParts, room: &[u8], host: &[u8], port: u32) -> u32
    ensures answer { IsUtf8 host.now → (t : Terms)
        → HasPlaces (to_open t) grant.now.permit_open room.now
        → (result ≡ 0) ↔ MayOpen t host.now port }
    ensures outside { (IsPartOf grant.now.permit_open room.now → ⊥) → result ≢ 0 }
    ensures number { (result ≡ 0) ⊎ (result ≡ 4) ⊎ (result ≡ 97) }
    ensures text { result ≡ 4 ↔ (IsUtf8 host.now → ⊥) }
{
    permitted(Way::Open, grant.permit_open, room, host, port)
}

/// Whether the client may have the server listen at that host and port ("tcpip-forward" of
/// RFC 4254, section 7.1), likewise (`login_terms::Terms::may_listen`). Does not allocate.
#[unsafe(no_mangle)]
pub extern "C" fn raf_may_listen(grant: &GrantParts, room: &[u8], host: &[u8], port: u32) -> u32
    ensures answer { IsUtf8 host.now → (t : Terms)
        → HasPlaces (to_listen t) grant.now.permit_listen room.now
        → (result ≡ 0) ↔ MayListen t host.now port }
    ensures outside { (IsPartOf grant.now.permit_listen room.now → ⊥) → result ≢ 0 }
    ensures number { (result ≡ 0) ⊎ (result ≡ 4) ⊎ (result ≡ 97) }
    ensures text { result ≡ 4 ↔ (IsUtf8 host.now → ⊥) }
{
    permitted(Way::Listen, grant.permit_listen, room, host, port)
}

/// Which way a port is forwarded.
#[derive(Clone, Copy)]
enum Way {
    Open,
    Listen,
}

/// Whether that way is permitted, where the part of the room has the places to which it is.
fn permitted(way: Way, part: Part, room: &[u8], host: &[u8], port: u32) -> u32
    ensures answer { IsUtf8 host.now → (places : List HostAndPort) → HasPlaces places part room.now
        → (result ≡ 0) ↔ (port < 65536) × Any (IsFor way host.now port) places }
    ensures outside { (IsPartOf part room.now → ⊥) → result ≢ 0 }
    ensures number { (result ≡ 0) ⊎ (result ≡ 4) ⊎ (result ≡ 97) }
    ensures text { result ≡ 4 ↔ (IsUtf8 host.now → ⊥) }
{
    let Ok(host) = str::from_utf8(host) else {
        return TEXT;
    };
    if port <= u32::from(u16::MAX) && is_named(way, bytes_in(part, room), host, port) {
        DONE
    } else {
        NOT_PERMITTED
    }
}

/// The bytes of the part; none where the room ends before it.
pub(crate) fn bytes_in(part: Part, room: &[u8]) -> &[u8]
    ensures part { IsPartOf part room.now → result.now ≡ bytes_of part room.now }
    ensures outside { (IsPartOf part room.now → ⊥) → result.now ≡ [] }
{
    match room.get(part.start..) {
        Some(rest) => match rest.get(..part.length) {
            Some(bytes) => bytes,
            None => &[],
        },
        None => &[],
    }
}

/// Whether one of the hosts and ports in the bytes stands for those that the client asks for.
fn is_named(way: Way, bytes: &[u8], host: &str, port: u32) -> bool
    ensures { (places : List HostAndPort) → AllByRecursion IsPlace places
        → bytes.now ≡ permit_strings places
        → IsTrue result ↔ Any (IsFor way host.now port) places }
{
    let mut rest = bytes;
    'places: while !rest.is_empty() {
        let Some((named, named_port, more)) = split_place(rest) else {
            return false;
        };
        if stands_for(way, named, named_port, host, port) {
            return true;
        }
        rest = more;
    }
    false
}

/// Whether the host and the port that are named stand for those that the client asks for.
fn stands_for(way: Way, named: &str, named_port: Option<u16>, host: &str, port: u32) -> bool
    ensures { (p : HostAndPort) → p.host ≡ named.now → p.port ≡ named_port
        → IsTrue result ↔ IsFor way host.now port p }
{
    match way {
        Way::Open => opens(named, named_port, host, port),
        Way::Listen => listens(named, named_port, host, port),
    }
}

/// The host and the port at the front of the bytes, and what follows them.
fn split_place(bytes: &[u8]) -> Option<(&str, Option<u16>, &[u8])>
    ensures place { (p : HostAndPort) → (more : List ℕ) → IsPlace p
        → BeginsWithPlace p more bytes.now result }
    ensures shorter { IfSome result (λ found. length found.2.now < length bytes.now) }
{
    let Ok((host, rest)) = split_text(bytes) else {
        return None;
    };
    let Ok((port, more)) = split_string(rest) else {
        return None;
    };
    match port_in(port) {
        Some(port) => Some((host, port, more)),
        None => None,
    }
}

/// The port that the bytes are: two, or none for any.
fn port_in(bytes: &[u8]) -> Option<Option<u16>>
    ensures { (port : Option ℕ) → IsWord port → bytes.now ≡ port_bytes port → result ≡ Some port }
{
    match bytes {
        [] => Some(None),
        [high, low] => Some(Some(u16::from_be_bytes([*high, *low]))),
        _ => None,
    }
}
