//! What is known of the host that a client connects to, as byte strings.

ghost use Rattle.std.specs.Prelude.{◌≡◌, length, IfOk, true};
ghost use Rattle.std.specs.Str.{is_utf8};
ghost use Rattle.host_keys.specs.Hosts.{SayTheSame, lines_of, login_of};
ghost use Rattle.sshkey_known_hosts.specs.Hmac.{hmac_sha1};
ghost use Rattle.sshkey_known_hosts.specs.HeldLines.{ArePlacesOf, total_length};
ghost use Rattle.sshkey_entry_calls.specs.Hosts.{are_texts, held_lines, login_with};

use sshkey_known_hosts::PlacedText;
use sshkey_matching::{HostFault, asked_host};
use std::alloc::{AllocError, Global};
use std::str;

/// The host that a client connects to, and what is known of it.
#[repr(C)]
#[derive(Clone, Copy, Debug)]
pub struct HostRequest<'a> {
    /// The texts of known_hosts: those of all the files that count, the user's and the machine's.
    pub known_hosts: &'a [&'a [u8]],
    /// The name or the address of the host, as the user typed it, without brackets.
    pub host: &'a [u8],
    /// Revocation files (`RevokedHostKeys` of ssh_config(5)): any of them revokes. One that cannot
    /// be read revokes everything, and so does no file at all.
    pub revoked: &'a [&'a [u8]],
    /// The time, in seconds since 1970. Only a certificate is asked about it.
    pub unix_timestamp: u64,
    /// How many bits an RSA key has at least, as `RequiredRSASize` in ssh_config(5). Below 1,024,
    /// as 0, it is 1,024.
    pub least_rsa_bits: u32,
    /// The port, which is not 0.
    pub port: u16,
}

impl<'a> HostRequest<'a> {
    /// Whether the name of the host is UTF-8.
    pub fn are_texts(&self) -> bool
        ensures { result ≡ are_texts self.now }
    {
        is_text(self.host)
    }

    /// The host, and these texts of known_hosts.
    pub(crate) fn with_texts<'b>(&'b self, texts: &'b [&'b [u8]]) -> host_keys::HostCheck<'b>
        requires { are_texts self.now ≡ true }
        ensures { login_of result hmac_sha1 ≡ login_with self.now (lines_of texts.now) }
    {
        host_keys::HostCheck {
            texts,
            host: text_of(self.host),
            port: self.port,
            unix_timestamp: self.unix_timestamp,
            least_rsa_bits: self.least_rsa_bits,
        }
    }

    /// The texts of those lines of the held text that may be for the host, and the texts of
    /// known_hosts. None are asked of a host about which nothing can be asked. Fails only when out
    /// of memory.
    pub(crate) fn texts_with(
        &self,
        alloc: Global,
        held: &PlacedText<'a>,
    ) -> Result<Vec<&'a [u8]>, AllocError>
        requires texts { are_texts self.now ≡ true }
        requires whole { total_length held.now.places.now ≡ length held.now.text.now }
        ensures { IfOk result (λ texts. ArePlacesOf held.now.places.now held.now.text.now
            → SayTheSame (login_with self.now (held_lines self.now held.now.text.now))
            (lines_of texts.items)) }
    {
        let asked = match asked_host(alloc, text_of(self.host), self.port) {
            Ok(asked) => asked,
            Err(HostFault::Memory) => return Err(AllocError),
            Err(HostFault::Port) => return Ok(Vec::new(alloc)),
            Err(HostFault::Empty) => return Ok(Vec::new(alloc)),
            Err(HostFault::Address) => return Ok(Vec::new(alloc)),
        };
        let Ok(mut texts) = held.texts_for(alloc, asked.as_str(), self.port) else {
            return Err(AllocError);
        };
        match texts.extend_from_slice(self.known_hosts) {
            Ok(()) => Ok(texts),
            Err(_) => Err(AllocError),
        }
    }
}

/// Whether the bytes are UTF-8.
fn is_text(bytes: &[u8]) -> bool
    ensures { result ≡ is_utf8 bytes.now }
{
    match str::from_utf8(bytes) {
        Ok(_) => true,
        Err(_) => false,
    }
}

/// The text that the bytes are.
fn text_of(bytes: &[u8]) -> &str
    requires { is_utf8 bytes.now ≡ true }
    ensures { result.now ≡ bytes.now }
{
    match str::from_utf8(bytes) {
        Ok(text) => text,
        Err(_) => unreachable!(),
    }
}
