//! What a line is to the host of a name.

ghost use Rattle.std.specs.Prelude.{◌≡◌, ℕ, List, IfErr, IfOk, option_map};
ghost use Rattle.sshkey_base.specs.declared.error.Error.TheVariants as wide;
ghost use Rattle.sshkey_entries.specs.HostVerdicts.{IsForOthers};
ghost use Rattle.sshkey_known_hosts.specs.HostEntries.{marker_of};
ghost use Rattle.sshkey_known_hosts.specs.HostLines.{HasNamedHosts, IsCut, IsToHost, is_unreadable};

use crate::host_hasher::HostHasher;
use crate::marker::Marker;
use crate::marker_field::{is_comment, is_without, split_marker_bytes};
use crate::named_hosts::are_for;
use sshkey_base::{Error, Result};
use sshkey_entries::bytes::{skip_blanks, split_blank};
use sshkey_entries::{bytes_are_former_key_fields, bytes_are_other_key_fields, read_key_bytes};
use sshkey_public::PublicKey;
use std::alloc::Global;

/// What a line is to the host of a name.
#[derive(Drop)]
pub(crate) enum HostLine {
    /// Hosts stand in it that are not for the name.
    ForOthers,
    /// An entry for the name.
    Entry {
        marker: Option<Marker>,
        public_key: PublicKey,
    },
    /// The same with a key whose kind is none here.
    OtherKey {
        marker: Option<Marker>,
    },
    /// No entry, which could be one for the name.
    Unreadable,
}

impl HostLine {
    pub(crate) fn is_unreadable(&self) -> bool
        ensures { result ≡ is_unreadable self.now }
    {
        matches!(self, HostLine::Unreadable)
    }
}

/// The same before the key is read.
#[derive(Clone, Copy)]
pub(crate) enum HostCut<'a> {
    ForOthers,
    /// The marker before hosts for the name, and the key's fields after them.
    Named(Option<Marker>, &'a [u8]),
    Unreadable,
}

/// The line, cut after its hosts. Takes no memory.
pub(crate) fn cut_hosts<'a, H: HostHasher>(line: &'a [u8], name: &str, hmac: &H) -> HostCut<'a>
    ensures { IsCut (H.hmac hmac.now) name.now line.now result }
{
    if !is_without(0, line) {
        return HostCut::Unreadable;
    }
    let text = skip_blanks(line);
    let Ok((marker, unmarked)) = split_marker_bytes(text) else {
        return HostCut::Unreadable;
    };
    let (hosts, rest) = split_blank(unmarked);
    match are_for(hosts, name, hmac) {
        None => HostCut::Unreadable,
        Some(false) => HostCut::ForOthers,
        Some(true) => {
            if is_comment(text) {
                return HostCut::Unreadable;
            }
            HostCut::Named(marker, skip_blanks(rest))
        }
    }
}

/// What a line is to the host that its hosts name, by its key's fields.
#[inline(never)]
pub(crate) fn read_fields(alloc: Global, marker: Option<Marker>, fields: &[u8]) -> Result<HostLine>
    ensures answer { IfOk result (λ it. (hmac : List ℕ → List ℕ → List ℕ) (name line : List ℕ) →
        HasNamedHosts hmac name line (option_map marker_of marker) fields.now →
        IsToHost hmac name line it) }
    ensures memory { IfErr result (λ e. e ≡ wide.Memory) }
{
    match read_key_bytes(alloc, fields) {
        Ok(public_key) => Ok(HostLine::Entry { marker, public_key }),
        Err(error) => {
            if error.is_memory() {
                return Err(Error::Memory);
            }
            if bytes_are_other_key_fields(fields) || bytes_are_former_key_fields(fields) {
                return Ok(HostLine::OtherKey { marker });
            }
            Ok(HostLine::Unreadable)
        }
    }
}

/// What a line is to the host of that name. Fails only when out of memory, and takes none for a
/// line that is for others.
pub(crate) fn read_host_line<H: HostHasher>(
    alloc: Global,
    line: &[u8],
    name: &str,
    hmac: &H,
) -> Result<HostLine>
    ensures answer { IfOk result (IsToHost (H.hmac hmac.now) name.now line.now) }
    ensures memory { IfErr result (λ e. e ≡ wide.Memory) }
    ensures asks { IfErr result (λ _. IsForOthers (H.hmac hmac.now) name.now line.now → ⊥) }
{
    match cut_hosts(line, name, hmac) {
        HostCut::ForOthers => Ok(HostLine::ForOthers),
        HostCut::Named(marker, fields) => read_fields(alloc, marker, fields),
        HostCut::Unreadable => Ok(HostLine::Unreadable),
    }
}
