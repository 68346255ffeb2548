//! Whether a client may come from an address.

ghost use Rattle.std.specs.Prelude.{◌≡◌, MatchOption};
ghost use Rattle.std.specs.declared.net.ip_addr.IpAddr.{IpAddr};
ghost use Rattle.sshkey_entry_calls.specs.Addresses.{IsAddressOf, IsNameIn, TellsFromAt, from_status, source_status};

use sshkey_calls::number::{DONE, ELSEWHERE, FORMAT, MEMORY, TEXT};
use sshkey_matching::{FromFault, Malformed, from_allows_at};
use std::alloc::Global;
use std::net::IpAddr;

/// The number of whether a list of authorized_keys lets a client in that has the name, if it is not
/// empty, and the address.
pub fn from_texts(alloc: Global, list: &str, host: &str, address: IpAddr) -> u32
    ensures { TellsFromAt list.now host.now address result }
{
    from_status(from_allows_at(alloc, list, name_of(host), address))
}

/// Returns the address of 4 or of 16 bytes, the most significant first, if there are that many.
/// Does not allocate.
pub fn address_of(bytes: &[u8]) -> Option<IpAddr>
    ensures { MatchOption result ((a : IpAddr) → IsAddressOf bytes.now a → ⊥)
        (λ a. IsAddressOf bytes.now a) }
{
    if let Ok(octets) = <[u8; 4]>::try_from(bytes) {
        return Some(IpAddr::from(octets));
    }
    match <[u8; 16]>::try_from(bytes) {
        Ok(octets) => Some(IpAddr::from(octets)),
        Err(_) => None,
    }
}

/// The name of a host, if it has one.
fn name_of(host: &str) -> Option<&str>
    ensures { IsNameIn host.now result }
{
    if host.is_empty() { None } else { Some(host) }
}

/// The number of what the list of a certificate says of an address.
pub fn source_status(answer: Result<bool, Malformed>) -> u32
    ensures { result ≡ source_status answer }
{
    match answer {
        Ok(true) => DONE,
        Ok(false) => ELSEWHERE,
        Err(_) => FORMAT,
    }
}

/// The number of what the list of a line says of an address.
fn from_status(answer: Result<bool, FromFault>) -> u32
    ensures { result ≡ from_status answer }
{
    match answer {
        Ok(true) => DONE,
        Ok(false) => ELSEWHERE,
        Err(FromFault::List) => FORMAT,
        Err(FromFault::Address | FromFault::Host) => TEXT,
        Err(FromFault::Memory) => MEMORY,
    }
}
