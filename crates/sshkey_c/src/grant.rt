//! What a login is let in by, and what it may do.

ghost use Rattle.std.specs.Prelude.{◌≡◌, ◌++◌, ◌≤◌, IfOk, map, string_bytes};
ghost use Rattle.login_terms.specs.Options.{terms_of};
ghost use Rattle.login_terms.specs.Values.{permit_of};
ghost use Rattle.sshkey_calls.specs.Rooms.{IsLaidOut};
ghost use Rattle.sshkey_fingerprints.specs.Fingerprints.{digest_of, fingerprint_hash};
ghost use Rattle.sshkey_model.specs.Names.{Sha256};
ghost use Rattle.sshkey_model.specs.Parts.{flat};
ghost use Rattle.sshkey_model.specs.Texts.{string};
ghost use Rattle.sshkey_c.specs.Grants.{AddsPart, ArePlaced, Gives, IsBySha256, authority_of, bit, grant_bytes, key_id_of, no_grant, or_empty, permit_strings, permits_of, places, port_bytes, serial_of, span_of, strings, tunnel_of};

use crate::refusal::{Refusal, source_number, text_number};
use login_terms::{Permit, Terms};
use publickey_login::PublickeyGrant;
use sshkey_base::Result;
use sshkey_calls::number::{DONE, SHORT_BUFFER};
use sshkey_calls::part::{add, add_encoded, write_to};
use sshkey_calls::{Part, Sha256Digest};
use sshkey_entry_calls::TimeSpan;
use sshkey_keys::Fingerprint;
use std::alloc::Global;
use user_keys::Certified;

/// A terminal.
const PTY: u32 = 1;
/// Forwarding of ports.
const PORT_FORWARDING: u32 = 2;
/// Forwarding of the agent.
const AGENT_FORWARDING: u32 = 4;
/// Forwarding of X11.
const X11_FORWARDING: u32 = 8;
/// The user's `~/.ssh/rc`.
const USER_RC: u32 = 16;
/// What the client asks for, or a shell.
pub(crate) const ANY_COMMAND: u32 = 32;
/// A security key that nobody touched.
const NO_TOUCH: u32 = 64;
/// A security key that did not verify its user.
const NO_VERIFICATION: u32 = 128;

/// Tunnels (tun(4)).
const TUNNELS: u32 = 256;
/// Whichever device of them the client asks for; beside them alone.
const ANY_TUNNEL: u32 = 512;

/// The host `*`, and no port.
const ANYWHERE: &[u8] = b"\0\0\0\x01*\0\0\0\0";

/// What a login is let in by, and what it may do. The parts are parts of the room that was given,
/// one after the other.
#[repr(C)]
#[derive(Clone, Copy, Debug)]
pub struct GrantParts {
    /// To be shown: the command that is forced. It may have no bytes, and has none where none is:
    /// `raf_runs` says what runs.
    pub force_command: Part,
    /// The certificate's key id, a text for logs. Of a plain key it has no bytes.
    pub key_id: Part,
    /// Where ports may be forwarded to, as `raf_may_open` reads it: strings, two each: a host, and
    /// a port of two bytes, the most significant first, or of none where it is any. Where ports may
    /// be forwarded to anywhere, it is the host `*` at any port; nowhere, it has no bytes.
    pub permit_open: Part,
    /// Where may be listened, likewise, as `raf_may_listen` reads it.
    pub permit_listen: Part,
    /// `NAME=value`, a string each.
    pub environment: Part,
    /// How many bytes of the room these take.
    pub length: usize,
    /// The number of the line that lets in, from 1; 0 where the certificate alone does. Of a
    /// refusal that of the line that is its reason, or 0.
    pub line: usize,
    /// The number of the line's text among its like, from 0. Of a refusal likewise.
    pub text: usize,
    /// The certificate's serial number; 0 of a plain key.
    pub serial: u64,
    /// The last second at which the line counts, as far as it can be told; both are the greatest
    /// number where it counts at any.
    pub expires: TimeSpan,
    /// The SHA-256 fingerprint of the key that signed the certificate; zeros of a plain key.
    pub authority: Sha256Digest,
    /// The SHA-256 fingerprint of the plain key, also of one that is in a certificate.
    pub key: Sha256Digest,
    /// What is permitted, a sum: 1 a terminal, 2, 4 and 8 the forwarding of ports, of the agent and
    /// of X11, 16 the user's `~/.ssh/rc`, 32 any command, 64 a security key that nobody touched,
    /// 128 one that did not verify its user, 256 tunnels, and with that 512 whichever device of
    /// them. 0 permits nothing.
    pub permits: u32,
    /// The device of tun(4), where tunnels are permitted and it is not any.
    pub tunnel: u32,
    /// 1 for a text of authorized_keys, 2 for an authority by a certificate that lists the user, 3
    /// for one by a text of principals, 4 for what `AuthorizedKeysCommand` wrote. Of a refusal that
    /// of the text that is its reason, or 0.
    pub source: u32,
}

/// The grant of nothing, which needs a room of that many bytes, where that text and line are the
/// reason.
pub(crate) fn no_grant(length: usize, reason: Refusal) -> GrantParts
    ensures { result ≡ no_grant length reason }
{
    let part = Part {
        start: 0,
        length: 0,
    };
    let digest = Sha256Digest { bytes: [0; 32] };
    GrantParts {
        force_command: part,
        key_id: part,
        permit_open: part,
        permit_listen: part,
        environment: part,
        length,
        line: reason.line,
        text: reason.text,
        serial: 0,
        expires: TimeSpan { first: 0, last: 0 },
        authority: digest,
        key: digest,
        permits: 0,
        tunnel: 0,
        source: reason.source,
    }
}

/// Answers with the grant, its bytes in the room. Where the room is shorter, it stays as it was,
/// and the answer is the other one, which says only how many bytes there are.
pub(crate) fn write_grant<G: Copy>(
    content: &[u8],
    grant: G,
    short: G,
    room: &mut [u8],
    answer: &mut G,
) -> u32
    ensures { Gives content.now grant short result answer.new room.old room.new }
{
    if write_to(room, content) {
        *answer = grant;
        return DONE;
    }
    *answer = short;
    SHORT_BUFFER
}

/// The bytes of what is granted, one part after the other, and where they are. Fails only when out
/// of memory.
pub(crate) fn lay_out_grant(
    alloc: Global,
    granted: &PublickeyGrant,
) -> Result<(Vec<u8>, GrantParts)>
    requires authority { IsBySha256 granted.now.user.certified }
    requires key { fingerprint_hash granted.now.key ≡ Sha256 }
    ensures { IfOk result
        (λ laid. IsLaidOut grant_bytes ArePlaced granted.now laid.0.items laid.1) }
{
    let grant = &granted.user;
    let terms = &grant.terms;
    let mut content = Vec::new(alloc);
    let force_command = add(command(terms).as_bytes(), &mut content)?;
    let key_id = add(key_id(&grant.certified).as_bytes(), &mut content)?;
    let may = terms.permissions.port_forwarding;
    let permit_open = add_places(may, &terms.permit_open, &mut content)?;
    let permit_listen = add_places(may, &terms.permit_listen, &mut content)?;
    let environment = add_strings(&terms.environment, &mut content)?;
    let length = content.len();
    Ok((
        content,
        GrantParts {
            force_command,
            key_id,
            permit_open,
            permit_listen,
            environment,
            length,
            line: grant.line,
            text: text_number(granted.source),
            serial: serial(&grant.certified),
            expires: expires(terms),
            authority: authority(&grant.certified),
            key: key_digest(granted.key),
            permits: permits(terms),
            tunnel: tunnel(terms),
            source: source_number(granted.source),
        },
    ))
}

/// The command that has to run, or no bytes.
fn command(terms: &Terms) -> &str
    ensures { result.now ≡ or_empty (terms_of terms.now).command }
{
    match terms.shown_command() {
        Some(command) => command,
        None => "",
    }
}

fn key_id(certified: &Option<Certified>) -> &str
    ensures { result.now ≡ key_id_of certified.now }
{
    match certified {
        Some(certified) => certified.key_id.as_str(),
        None => "",
    }
}

fn serial(certified: &Option<Certified>) -> u64
    ensures { result ≡ serial_of certified.now }
{
    match certified {
        Some(certified) => certified.serial,
        None => 0,
    }
}

/// The fingerprint of the key that signed the certificate; zero where there is none.
fn authority(certified: &Option<Certified>) -> Sha256Digest
    requires { IsBySha256 certified.now }
    ensures { result.bytes ≡ authority_of certified.now }
{
    let Some(certified) = certified else {
        return Sha256Digest { bytes: [0; 32] };
    };
    match certified.authority.sha256() {
        Some(bytes) => Sha256Digest { bytes },
        None => unreachable!(),
    }
}

/// Adds the texts, each as a string.
fn add_strings(texts: &[String], content: &mut Vec<u8>) -> Result<Part>
    ensures { IfOk result (λ part. AddsPart (strings (map string_bytes texts.now)) part
        content.old.items content.new.items) }
{
    let start = content.len();
    for text in texts {
        add_encoded(text, content)?;
    }
    Ok(Part {
        start,
        length: content.len() - start,
    })
}

/// Adds where ports may be forwarded: nowhere, anywhere, or there.
fn add_places(may: bool, permits: &[Permit], content: &mut Vec<u8>) -> Result<Part>
    ensures { IfOk result (λ part.
        AddsPart (permit_strings (places may (map permit_of permits.now))) part
        content.old.items content.new.items) }
{
    if !may {
        return add(&[], content);
    }
    if permits.is_empty() {
        return add(ANYWHERE, content);
    }
    add_permits(permits, content)
}

/// Adds the hosts and ports, each as two strings.
fn add_permits(permits: &[Permit], content: &mut Vec<u8>) -> Result<Part>
    ensures { IfOk result (λ part. AddsPart (permit_strings (map permit_of permits.now)) part
        content.old.items content.new.items) }
{
    let start = content.len();
    for permit in permits {
        add_encoded(&permit.host, content)?;
        add_port(permit.port, content)?;
    }
    Ok(Part {
        start,
        length: content.len() - start,
    })
}

/// Adds the port, as a string.
fn add_port(port: Option<u16>, content: &mut Vec<u8>) -> Result<Part>
    ensures { IfOk result (λ _. content.new.items
        ≡ content.old.items ++ flat (string (port_bytes port))) }
{
    match port {
        Some(port) => add_encoded(&port.to_be_bytes().as_slice(), content),
        None => add_encoded(&"", content),
    }
}

/// What is permitted.
fn permits(terms: &Terms) -> u32
    ensures { result ≡ permits_of (terms_of terms.now) }
{
    let may = &terms.permissions;
    bit(PTY, may.pty)
        + bit(PORT_FORWARDING, may.port_forwarding)
        + bit(AGENT_FORWARDING, may.agent_forwarding)
        + bit(X11_FORWARDING, may.x11_forwarding)
        + bit(USER_RC, may.user_rc)
        + bit(ANY_COMMAND, terms.shown_command().is_none())
        + bit(NO_TOUCH, !terms.touch_required)
        + bit(NO_VERIFICATION, !terms.verify_required)
        + bit(TUNNELS, may.tunnels)
        + bit(ANY_TUNNEL, may.tunnels && terms.tunnel.is_none())
}

/// Until when the line counts.
fn expires(terms: &Terms) -> TimeSpan
    ensures { result ≡ span_of (terms_of terms.now).expires }
{
    match terms.expires {
        Some(last) => TimeSpan {
            first: last.first,
            last: last.last,
        },
        None => TimeSpan {
            first: u64::MAX,
            last: u64::MAX,
        },
    }
}

/// The device of tun(4), where there may be tunnels.
fn tunnel(terms: &Terms) -> u32
    ensures { result ≡ tunnel_of (terms_of terms.now) }
{
    match terms.tunnel {
        Some(device) if terms.permissions.tunnels => device,
        _ => 0,
    }
}

/// The digest of a fingerprint by SHA-256.
fn key_digest(key: Fingerprint) -> Sha256Digest
    requires { fingerprint_hash key ≡ Sha256 }
    ensures { result.bytes ≡ digest_of key }
{
    match key.sha256() {
        Some(bytes) => Sha256Digest { bytes },
        None => unreachable!(),
    }
}

/// The number, if it is permitted, and else 0.
pub(crate) fn bit(number: u32, is_permitted: bool) -> u32
    ensures value { result ≡ bit number is_permitted }
    ensures most { result ≤ number }
{
    if is_permitted { number } else { 0 }
}
