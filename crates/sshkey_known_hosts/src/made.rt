//! Entries that are made of their parts.

ghost use Rattle.std.specs.Prelude.{◌≡◌, ◌↔◌, IsTrue, IfErr, IfOk};
ghost use Rattle.sshkey_base.specs.declared.error.Error.TheVariants as wide;
ghost use Rattle.sshkey_entries.specs.KnownHosts.{IsKnownHost};
ghost use Rattle.sshkey_entries.specs.OpenSshLines.{IsHostLine};
ghost use Rattle.sshkey_known_hosts.specs.HostEntries.{IsOfKey, known_host_of, hosts_in, key_in, marker_in, IsReadBack, RefusesMade, known_host_from};

use crate::entry::Entry;
use crate::host_patterns::HostPatterns;
use crate::laws::equal_known_hosts;
use crate::marker::Marker;
use sshkey_base::{Error, Result};
use sshkey_public::PublicKey;
use std::alloc::Global;

/// Whether the first entry, whose key is well-formed, means the same as the other.
fn is_same_entry(one: &Entry, other: &Entry) -> bool
    ensures { IsOfKey one.now → IsTrue result ↔ (known_host_of one.now ≡ known_host_of other.now) }
{
    equal_known_hosts();
    one == other
}

fn is_read_back(alloc: Global, line: &str, entry: &Entry) -> Result<bool>
    ensures answer { IfOk result
        (λ back. IsTrue back ↔ IsKnownHost line.now (known_host_of entry.now)) }
    ensures memory { IfErr result (λ e. e ≡ wide.Memory) }
{
    match Entry::from_line(alloc, line) {
        Ok(read) => Ok(is_same_entry(&read, entry)),
        Err(error) => {
            if error.is_memory() {
                return Err(Error::Memory);
            }
            Ok(false)
        }
    }
}

fn is_read_back_openssh(alloc: Global, line: &str, entry: &Entry) -> Result<bool>
    ensures answer { IfOk result
        (λ back. IsTrue back ↔ IsHostLine line.now (known_host_of entry.now)) }
    ensures memory { IfErr result (λ e. e ≡ wide.Memory) }
{
    match Entry::from_line_openssh(alloc, line) {
        Ok(read) => Ok(is_same_entry(&read, entry)),
        Err(error) => {
            if error.is_memory() {
                return Err(Error::Memory);
            }
            Ok(false)
        }
    }
}

impl Entry {
    /// An entry of these parts, whose line is read back as it is.
    ///
    /// Fails with `FormatEncoding` if `is_one_line` would return false, and else with `Length` if a
    /// part of the key is longer than 2^32 - 1 bytes, both whatever memory there is. Else, unless
    /// memory runs out, it fails with `FormatEncoding` exactly if `from_line` or
    /// `from_line_openssh` rejects the line that `to_string` writes, or reads another entry of it.
    ///
    /// So patterns with a space, a tab or a comma are rejected, no patterns and an empty one at the
    /// end, a first one that begins with a `#`, an `@` or `|1|`, a comment with white space at its
    /// ends, and a line end anywhere.
    pub fn new(
        alloc: Global,
        marker: Option<Marker>,
        host_patterns: HostPatterns,
        public_key: PublicKey,
    ) -> Result<Entry>
        ensures marker { IfOk result (λ e. marker_in e ≡ marker) }
        ensures hosts { IfOk result (λ e. hosts_in e ≡ host_patterns) }
        ensures key { IfOk result (λ e. key_in e ≡ public_key) }
        ensures back { IfOk result (λ e. IsReadBack (known_host_of e)) }
        ensures refused { IfErr result
            (RefusesMade (known_host_from marker host_patterns public_key)) }
    {
        let entry = Entry {
            marker,
            host_patterns,
            public_key,
        };
        if !entry.is_one_line() {
            return Err(Error::FormatEncoding);
        }
        let line = entry.to_string(alloc)?;
        if !is_read_back(alloc, line.as_str(), &entry)? {
            return Err(Error::FormatEncoding);
        }
        if !is_read_back_openssh(alloc, line.as_str(), &entry)? {
            return Err(Error::FormatEncoding);
        }
        Ok(entry)
    }
}
