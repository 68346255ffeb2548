//! Networks of addresses.

ghost use Rattle.std.specs.Prelude.{◌≡◌, ◌↔◌, ◌≤◌, ◌<◌, ◌^◌, ℕ, IsTrue, length, MatchOption};
ghost use Rattle.std.specs.Net.Grammar.{IsNumber};
ghost use Rattle.std.specs.declared.net.ip_addr.IpAddr.{IpAddr};
ghost use Rattle.sshkey_matching.specs.SourceAddresses.{width, number, WritesNetwork, IsWhole, IsNetwork, IsSomeNetwork, IsAmong, Covers};

use crate::bits::{front_bits, last_bits};
use std::net::IpAddr;

/// A network: the addresses of one family that begin with the same bits (RFC 4632), as `10.0.0.0/8`
/// or `2001:db8::/32`. An address is a network of its own.
#[derive(Clone, Copy)]
struct Network {
    address: IpAddr,
    counted: u32,
}

/// The most digits that may follow the `/`.
const MOST_DIGITS: usize = 3;

impl Network {
    /// Reads an address, or an address, a `/` and how many of its bits count. `None` if it is
    /// neither, counts more bits than the address has, or has a bit that is not 0 where none
    /// counts.
    ///
    /// sshd(8) also reads addresses as inet_aton(3) does (`010.0.0.0/8` is 8.0.0.0/8 there, and
    /// `10.1` is 10.0.0.1), and more zeros in front of the number of bits.
    fn from_text(text: &str) -> Option<Network>
        ensures { MatchOption result (IsSomeNetwork text.now → ⊥)
            (λ n. IsNetwork text.now n.address n.counted) }
    {
        let Some((address, counted)) = split_network(text) else {
            return None;
        };
        if !is_whole(address, counted) {
            return None;
        }
        Some(Network { address, counted })
    }

    /// Whether the address is one of the network's.
    fn contains(&self, address: IpAddr) -> bool
        requires { self.now.counted ≤ width self.now.address }
        ensures { IsTrue result ↔ IsAmong self.now.address self.now.counted address }
    {
        let width = width(self.address);
        let last = width - self.counted;
        crate::network::width(address) == width
            && front_bits(number(address), last) == front_bits(number(self.address), last)
    }
}

fn width(address: IpAddr) -> u32
    ensures { result ≡ width address }
{
    match address {
        IpAddr::V4(_) => 32,
        IpAddr::V6(_) => 128,
    }
}

fn number(address: IpAddr) -> u128
    ensures { result ≡ number address }
{
    match address {
        IpAddr::V4(address) => u128::from(address.to_bits()),
        IpAddr::V6(address) => address.to_bits(),
    }
}

/// Whether no more bits count than there are, and the others are 0.
fn is_whole(address: IpAddr, counted: u32) -> bool
    ensures { IsTrue result ↔ IsWhole address counted }
{
    let width = width(address);
    counted <= width && last_bits(number(address), width - counted) == 0
}

/// The address that the text writes, and how many of its bits it says to count.
fn split_network(text: &str) -> Option<(IpAddr, u32)>
    ensures { MatchOption result
        ((a : IpAddr) → (counted : ℕ) → WritesNetwork text.now a counted → counted ≤ width a → ⊥)
        (λ x. WritesNetwork text.now x.0 x.1) }
{
    let Some((front, digits)) = text.split_once('/') else {
        let Ok(address) = text.parse::<IpAddr>() else {
            return None;
        };
        return Some((address, width(address)));
    };
    let Ok(address) = front.parse::<IpAddr>() else {
        return None;
    };
    let Some(counted) = read_count(digits) else {
        return None;
    };
    Some((address, counted))
}

/// The number that one to three digits write.
fn read_count(digits: &str) -> Option<u32>
    ensures { MatchOption result
        ((n : ℕ) → IsNumber 10 digits.now n → length digits.now ≤ 3 → n < 2 ^ 32 → ⊥)
        (λ n. IsNumber 10 digits.now n × (length digits.now ≤ 3)) }
{
    if digits.len() > MOST_DIGITS || digits.starts_with('+') {
        return None;
    }
    digits.parse::<u32>().ok()
}

/// Whether the text is a network that has the address; `None` if it is no network.
pub(crate) fn covers(text: &str, address: IpAddr) -> Option<bool>
    ensures { MatchOption result (IsSomeNetwork text.now → ⊥)
        (λ yes. IsSomeNetwork text.now × (IsTrue yes ↔ Covers text.now address)) }
{
    let Some(network) = Network::from_text(text) else {
        return None;
    };
    Some(network.contains(address))
}
