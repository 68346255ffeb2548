//! What a text of known_hosts says of a host's key.

ghost use Rattle.std.specs.Prelude.{◌≡◌, ◌<◌, ◌↔◌, ◌∷◌, [], ℕ, List, IsTrue, IfOk, IfErr, length, option_map};
ghost use Rattle.sshkey_base.specs.declared.error.Error.TheVariants as wide;
ghost use Rattle.sshkey_entries.specs.Fields.{filled_lines};
ghost use Rattle.sshkey_entries.specs.HostVerdicts.{known_name, IsForOthers};
ghost use Rattle.sshkey_keys.specs.Keys.{key_of};
ghost use Rattle.sshkey_known_hosts.specs.HostEntries.{marker_of};
ghost use Rattle.sshkey_known_hosts.specs.HostLines.{HasNamedHosts};
ghost use Rattle.sshkey_known_hosts.specs.Verdicts.{IsVerdict, SayTogether, marked_verdict_of, max_severity_of};

use crate::host_hasher::HostHasher;
use crate::host_line::{HostCut, HostLine, cut_hosts, read_fields};
use crate::host_name::known_name;
use crate::marker::Marker;
use sshkey_base::Result;
use sshkey_entries::NonBlankByteLines;
use sshkey_keys::KeyData;
use std::alloc::Global;

/// What a text of known_hosts says of a host's key: the first of these that holds.
#[derive(Debug, Clone, Copy, PartialEq, Eq)]
pub enum Verdict {
    /// An entry for the host revokes the key.
    Revoked,
    /// A line is no entry and could be one for the host, perhaps a revocation.
    Unreadable,
    /// An entry for the host has the key.
    Trusted,
    /// An entry for the host has another key.
    Changed,
    /// None of the above: no entry without a marker is for the host.
    Unknown,
}

impl Verdict {
    /// Returns the more severe of the two, which stands first in the list above: what two texts say
    /// together, by what each of them says of the same key, host and port.
    pub fn max_severity(self, other: Verdict) -> Verdict
        ensures first { result ≡ max_severity_of self other }
        ensures together { SayTogether self other result }
    {
        max_severity(self, other)
    }
}

/// Of two verdicts the one that stands first.
fn max_severity(one: Verdict, other: Verdict) -> Verdict
    ensures { result ≡ max_severity_of one other }
{
    match (one, other) {
        (Verdict::Revoked, _) | (_, Verdict::Revoked) => Verdict::Revoked,
        (Verdict::Unreadable, _) | (_, Verdict::Unreadable) => Verdict::Unreadable,
        (Verdict::Trusted, _) | (_, Verdict::Trusted) => Verdict::Trusted,
        (Verdict::Changed, _) | (_, Verdict::Changed) => Verdict::Changed,
        (Verdict::Unknown, Verdict::Unknown) => Verdict::Unknown,
    }
}

/// What an entry for the name says of a key, which is its own or not.
fn marked_verdict(marker: Option<Marker>, same: bool) -> Verdict
    ensures { result ≡ marked_verdict_of marker same }
{
    match (marker, same) {
        (Some(Marker::Revoked), true) => Verdict::Revoked,
        (None, true) => Verdict::Trusted,
        (None, false) => Verdict::Changed,
        (Some(Marker::Revoked), false) | (Some(Marker::CertAuthority), _) => Verdict::Unknown,
    }
}

/// What a line says of a key of the host that its hosts name, by its key's fields. Lines for others
/// do not pay for what it holds.
#[inline(never)]
fn fields_verdict(
    alloc: Global,
    marker: Option<Marker>,
    fields: &[u8],
    key: &KeyData,
) -> Result<Verdict>
    ensures answer { IfOk result (λ v. (hmac : List ℕ → List ℕ → List ℕ) (name line : List ℕ) →
        HasNamedHosts hmac name line (option_map marker_of marker) fields.now →
        IsVerdict hmac name (key_of key.now) (line ∷ []) v) }
    ensures memory { IfErr result (λ e. e ≡ wide.Memory) }
{
    match read_fields(alloc, marker, fields)? {
        HostLine::ForOthers => Ok(Verdict::Unknown),
        HostLine::Entry { marker, public_key } => {
            let same = public_key.key_data().is(key);
            Ok(marked_verdict(marker, same))
        }
        HostLine::OtherKey { marker } => Ok(marked_verdict(marker, false)),
        HostLine::Unreadable => Ok(Verdict::Unreadable),
    }
}

/// What a line says of a key of that name. Takes no memory for a line that is for others.
fn line_verdict<H: HostHasher>(
    alloc: Global,
    line: &[u8],
    name: &str,
    key: &KeyData,
    hmac: &H,
) -> Result<Verdict>
    ensures answer { IfOk result
        (IsVerdict (H.hmac hmac.now) name.now (key_of key.now) (line.now ∷ [])) }
    ensures memory { IfErr result (λ e. e ≡ wide.Memory) }
    ensures asks { IfErr result (λ _. IsForOthers (H.hmac hmac.now) name.now line.now → ⊥) }
{
    match cut_hosts(line, name, hmac) {
        HostCut::ForOthers => Ok(Verdict::Unknown),
        HostCut::Named(marker, fields) => fields_verdict(alloc, marker, fields, key),
        HostCut::Unreadable => Ok(Verdict::Unreadable),
    }
}

/// Whether the text has a line that is neither empty nor a comment.
pub(crate) fn has_lines(text: &[u8]) -> bool
    ensures { IsTrue result ↔ (0 < length (filled_lines text.now)) }
{
    NonBlankByteLines::new(text).next().is_some()
}

/// What a text of known_hosts, as OpenSSH reads it, says of a host's key (sshd(8),
/// "SSH_KNOWN_HOSTS FILE FORMAT").
///
/// `Revoked` comes before all: whatever other lines say, an entry `@revoked` with this key for the
/// host decides. Then a line that is no entry and could be for the host makes the answer
/// `Unreadable`, since it could be a revocation: only where hosts stand in it that are not for this
/// host it is passed over, and never where a zero byte stands in it, at which ssh takes the hosts
/// to end. An entry with a key of a kind that is none here, as the `ssh-mldsa44-ed25519` of later
/// OpenSSH or the XMSS of earlier, is one of another key (`sshkey_entries::are_other_key_fields`,
/// `sshkey_entries::bytes_are_former_key_fields`). Then an entry for the host with this key makes it
/// `Trusted`, or else one with another key `Changed`, and else it is `Unknown`. Of authorities
/// nothing is said here.
///
/// Of the bytes of a line nothing is asked: as for ssh, a comment decides nothing, whatever its
/// encoding.
///
/// It judges this text alone, and another file may revoke the key: ask about every file that
/// counts, and join the verdicts by `Verdict::max_severity`, as `host_keys::check_key` does.
///
/// `HostPatterns::matches` says which entries are for a host at a port. Fails only when out of
/// memory, which the host's name takes, and a line that could be for the host: a text that is empty
/// or has comments alone takes none.
///
/// ```rust
/// // as in crates/host_keys/src/texts.rt
/// let mut found = Verdict::Unknown;
/// for text in texts {
///     found = found.max_severity(key_verdict(alloc, text, host, port, key, hmac)?);
/// }
/// ```
pub fn key_verdict<H: HostHasher>(
    alloc: Global,
    text: &[u8],
    host: &str,
    port: u16,
    key: &KeyData,
    hmac: &H,
) -> Result<Verdict>
    ensures answer { IfOk result (IsVerdict (H.hmac hmac.now) (known_name host.now port)
        (key_of key.now) (filled_lines text.now)) }
    ensures memory { IfErr result (λ e. e ≡ wide.Memory) }
    ensures asks { IfErr result (λ _. 0 < length (filled_lines text.now)) }
{
    if !has_lines(text) {
        return Ok(Verdict::Unknown);
    }
    let name = known_name(alloc, host, port)?;
    let mut found = Verdict::Unknown;
    for line in NonBlankByteLines::new(text) {
        found = found.max_severity(line_verdict(alloc, line, name.as_str(), key, hmac)?);
    }
    Ok(found)
}
