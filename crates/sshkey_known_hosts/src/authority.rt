//! The authorities that sign the keys of a host.

ghost use Rattle.std.specs.Prelude.{◌≡◌, ◌<◌, IfOk, IfErr, length};
ghost use Rattle.sshkey_base.specs.declared.error.Error.TheVariants as wide;
ghost use Rattle.sshkey_entries.specs.Fields.{filled_lines};
ghost use Rattle.sshkey_entries.specs.HostVerdicts.{known_name, IsForOthers};
ghost use Rattle.sshkey_known_hosts.specs.Verdicts.{AreAuthorities, AreInOrder, IsAuthorityLine, is_authority_of};

use crate::host_hasher::HostHasher;
use crate::host_line::{HostLine, read_host_line};
use crate::host_name::known_name;
use crate::marker::Marker;
use crate::verdict::has_lines;
use sshkey_base::Result;
use sshkey_entries::NonBlankByteLines;
use sshkey_public::PublicKey;
use std::alloc::Global;

fn is_authority(marker: Option<Marker>) -> bool
    ensures { result ≡ is_authority_of marker }
{
    matches!(marker, Some(Marker::CertAuthority))
}

/// The key of a line that is an entry of an authority for that name. Takes no memory for a line that
/// is for others.
fn line_authority<H: HostHasher>(
    alloc: Global,
    line: &[u8],
    name: &str,
    hmac: &H,
) -> Result<Option<PublicKey>>
    ensures answer { IfOk result (IsAuthorityLine (H.hmac hmac.now) name.now line.now) }
    ensures memory { IfErr result (λ e. e ≡ wide.Memory) }
    ensures asks { IfErr result (λ _. IsForOthers (H.hmac hmac.now) name.now line.now → ⊥) }
{
    match read_host_line(alloc, line, name, hmac)? {
        HostLine::Entry { marker, public_key } => {
            if is_authority(marker) {
                return Ok(Some(public_key));
            }
            Ok(None)
        }
        HostLine::ForOthers => Ok(None),
        HostLine::OtherKey { .. } => Ok(None),
        HostLine::Unreadable => Ok(None),
    }
}

/// The keys of the authorities that sign the keys of a host: those of the entries
/// `@cert-authority` for it in a text of known_hosts, as OpenSSH reads it, each with its comment,
/// or none that is not UTF-8, in the order of the lines (sshd(8), "SSH_KNOWN_HOSTS FILE FORMAT").
///
/// A line that is no entry gives none, and an authority may be revoked by another line, as may the
/// key that it certified: before a certificate is trusted, ask `key_verdict` about both keys, and
/// refuse it where one is `Revoked` or `Unreadable`. Fails only when out of memory, and never of a
/// text that is empty or has comments alone.
pub fn authorities<H: HostHasher>(
    alloc: Global,
    text: &[u8],
    host: &str,
    port: u16,
    hmac: &H,
) -> Result<Vec<PublicKey>>
    ensures answer { IfOk result (λ keys. AreAuthorities (H.hmac hmac.now)
        (known_name host.now port) (filled_lines text.now) keys.items) }
    ensures in_order { IfOk result (λ keys. AreInOrder (H.hmac hmac.now)
        (known_name host.now port) (filled_lines text.now) keys.items) }
    ensures memory { IfErr result (λ e. e ≡ wide.Memory) }
    ensures asks { IfErr result (λ _. 0 < length (filled_lines text.now)) }
{
    if !has_lines(text) {
        return Ok(Vec::new(alloc));
    }
    let name = known_name(alloc, host, port)?;
    let mut found = Vec::new(alloc);
    for line in NonBlankByteLines::new(text) {
        if let Some(key) = line_authority(alloc, line, name.as_str(), hmac)? {
            found.push(key)?;
        }
    }
    Ok(found)
}
