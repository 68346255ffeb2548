//! What is asked about a host that a user named.

ghost use Rattle.std.specs.Prelude.{◌≡◌, ◌↔◌, IsTrue, MatchResult};
ghost use Rattle.sshkey_matching.specs.AskedHosts.{HasOneText, IsAsked, IsHostFault, asked_name};

use crate::from::is_ipv4_compatible;
use crate::likeness::is_like_address;
use std::alloc::Global;
use std::net::IpAddr;

/// The name under which known_hosts and certificates list a host that a user named.
#[derive(Debug, Drop)]
pub enum AskedHost<'a> {
    /// A name, as the user typed it.
    Name(&'a str),
    /// The text of an address.
    Address(String),
}

impl AskedHost<'_> {
    /// The name.
    pub fn as_str(&self) -> &str
        ensures { result.now ≡ asked_name self.now }
    {
        match self {
            AskedHost::Name(name) => name,
            AskedHost::Address(text) => text.as_str(),
        }
    }
}

/// Why nothing can be asked about a host.
#[derive(Clone, Copy, Debug, PartialEq, Eq, thiserror::Error)]
pub enum HostFault {
    /// The port is 0.
    #[error("port 0")]
    Port,
    /// The host has no bytes.
    #[error("no host")]
    Empty,
    /// The host is like an address, and none that has one text: `127.1` and `0x7f.1`, which
    /// inet_aton(3) reads, `fe80::1%eth0` with its scope, `[::1]` in brackets, and an address of
    /// `::/96` beyond `::` and `::1`, which inet_ntop(3) writes as `::10.1.2.3`, and RFC 5952 as
    /// `::a01:203`.
    #[error("host that is like an address and has no text as one")]
    Address,
    /// Memory ran out.
    #[error("out of memory")]
    Memory,
}

/// What ssh(1) asks known_hosts and a host's certificate about, where a user typed that host and
/// that port. An address is asked in the one text that inet_ntop(3) writes: of `FD00:0::1` that is
/// `fd00::1`. A name is asked as it was typed; whoever compares it passes over the case of letters.
///
/// Fails with the first of these that fits: `Port`, `Empty`, `Address`. It allocates, and so fails
/// with `Memory`, only for a host that is like an address: one with a colon, or a digit followed by
/// digits, dots, the letters a to f and x alone.
pub fn asked_host(alloc: Global, host: &str, port: u16) -> Result<AskedHost<'_>, HostFault>
    ensures { MatchResult result (λ asked. IsAsked host.now port (asked_name asked))
        (λ fault. IsHostFault host.now port fault) }
{
    if port == 0 {
        return Err(HostFault::Port);
    }
    if host.is_empty() {
        return Err(HostFault::Empty);
    }
    if !is_like_address(host.as_bytes()) {
        return Ok(AskedHost::Name(host));
    }
    let Ok(address) = host.parse::<IpAddr>() else {
        return Err(HostFault::Address);
    };
    if !has_one_text(address) {
        return Err(HostFault::Address);
    }
    match address.to_string(alloc) {
        Ok(text) => Ok(AskedHost::Address(text)),
        Err(_) => Err(HostFault::Memory),
    }
}

/// Whether inet_ntop(3) and RFC 5952 write the address alike.
fn has_one_text(address: IpAddr) -> bool
    ensures { IsTrue result ↔ HasOneText address }
{
    match address {
        IpAddr::V4(_) => true,
        IpAddr::V6(address) => !is_ipv4_compatible(&address),
    }
}
