//! Entries of known_hosts.

ghost use Rattle.std.specs.Prelude.{◌≡◌, ◌↔◌, IsTrue, IfErr, IfOk, string_bytes};
ghost use Rattle.sshkey_base.specs.declared.error.Error.TheVariants as wide;
ghost use Rattle.sshkey_entries.specs.KnownHosts.{KnownHost, IsKnownHost, known_text};
ghost use Rattle.sshkey_entries.specs.Answers.{AsksEntry, ReadsEntry, RefusesFor, MakesEntry};
ghost use Rattle.sshkey_known_hosts.specs.HostEntries.{key_in, hosts_in, known_host_of, marker_front, marker_in, SplitsMarker};
ghost use Rattle.sshkey_known_hosts.specs.HostFaults.{HasFault, NeedsLine};
ghost use Rattle.sshkey_keys.specs.Keys.{stored_algorithm};
ghost use Rattle.sshkey_public.specs.WrittenLines.{IsOneLine};
ghost use Rattle.sshkey_public.specs.PublicKeys.{data_of};

use crate::host_patterns::HostPatterns;
use crate::marker::Marker;
use sshkey_base::{Error, Result};
use sshkey_entries::FromLine;
use sshkey_public::PublicKey;
use std::alloc::Global;
use std::str::FromStr;

/// An entry: a marker or none, hosts, and a key with its comment.
#[derive(Debug, Drop, PartialEq, Eq)]
pub struct Entry {
    pub(crate) marker: Option<Marker>,
    pub(crate) host_patterns: HostPatterns,
    pub(crate) public_key: PublicKey,
}

/// The marker of a line, and what follows it.
fn split_marker(line: &str) -> Result<(Option<Marker>, &str)>
    ensures { SplitsMarker line.now result }
{
    if !line.starts_with('@') {
        return Ok((None, line));
    }
    let Some((word, rest)) = line.split_once(' ') else {
        return Err(Error::FormatEncoding);
    };
    Ok((Some(Marker::from_str(word)?), rest))
}

/// The marker and a space, or nothing.
fn marker_text(alloc: Global, marker: Option<Marker>) -> Result<String>
    ensures text { IfOk result (λ s. string_bytes s ≡ marker_front marker) }
    ensures memory { IfErr result (λ e. e ≡ wide.Memory) }
{
    let Some(marker) = marker else {
        return Ok(String::new(alloc));
    };
    let mut text = String::from_str(alloc, marker.as_str())?;
    text.push(' ')?;
    Ok(text)
}

impl FromLine for Entry {
    ghost Meaning = { KnownHost };

    ghost means = { known_host_of };

    ghost IsEntry = { IsKnownHost };

    ghost HasFault = { HasFault };

    ghost Needs = { NeedsLine };

    fn from_line(alloc: Global, line: &str) -> Result<Entry> {
        Entry::from_line(alloc, line)
    }
}

impl Entry {
    /// The entry of a line, as it stands: a marker and a space, where the line begins with `@`, the
    /// hosts up to the next space, and a key's line. White space at the end is cut off, and a `#`
    /// is a character like others.
    ///
    /// Unless memory runs out, it fails exactly if the line is no entry: `FormatEncoding` for
    /// another marker or a space that is missing, and else the errors of `HostPatterns::from_text`
    /// and then of `PublicKey::from_openssh`.
    ///
    /// Memory is taken for the hosts and what follows them: another marker, a space that is
    /// missing, and hosts that are empty or have no `|` after their salt never fail with `Memory`.
    ///
    /// A line that is rejected says nothing of its hosts. OpenSSH also takes tabs and several
    /// spaces between the fields, so the line may be a revocation to it: treat an `Err` as no
    /// verdict on any host, and do not pass over it. A tab in front of the key is part of the hosts
    /// here, so of such a line OpenSSH may read another key.
    pub fn from_line(alloc: Global, line: &str) -> Result<Entry>
        ensures reads { ReadsEntry known_host_of IsKnownHost line.now result }
        ensures fault { RefusesFor HasFault line.now result }
        ensures asks { AsksEntry NeedsLine line.now result }
    {
        let (marker, unmarked) = split_marker(line)?;
        let Some((hosts, rest)) = unmarked.split_once(' ') else {
            return Err(Error::FormatEncoding);
        };
        let host_patterns = HostPatterns::from_text(alloc, hosts)?;
        let public_key = PublicKey::from_openssh(alloc, rest)?;
        Ok(Entry {
            marker,
            host_patterns,
            public_key,
        })
    }

    /// The marker.
    pub fn marker(&self) -> Option<Marker>
        ensures { result ≡ marker_in self.now }
    {
        self.marker
    }

    /// The hosts.
    pub fn host_patterns(&self) -> &HostPatterns
        ensures { result.now ≡ hosts_in self.now }
    {
        &self.host_patterns
    }

    /// The key and its comment.
    pub fn public_key(&self) -> &PublicKey
        ensures { result.now ≡ key_in self.now }
    {
        &self.public_key
    }

    /// The line of the entry: the marker and a space, if there is one, the hosts, a space and the
    /// key's line in its normal form.
    ///
    /// Fails with `Length` exactly if a part of the key is longer than 2^32 - 1 bytes, and
    /// otherwise only when out of memory. Hosts and comment may hold line ends: see `is_one_line`.
    pub fn to_string(&self, alloc: Global) -> Result<String>
        ensures { MakesEntry (known_host_of self.now).key
            (known_text (known_host_of self.now)) result }
    {
        let key_line = self.public_key.to_openssh(alloc)?;
        let mut text = marker_text(alloc, self.marker)?;
        self.host_patterns.push_to(&mut text)?;
        text.push(' ')?;
        text.push_str(&key_line)?;
        Ok(text)
    }

    /// Whether `to_string` writes one line: no line feed and no carriage return stands in it. Does
    /// not allocate.
    ///
    /// The hosts and the comment of an entry that was read, and its key's name, may hold line ends.
    /// So ask before an entry is added to a file: after a line end stands another entry.
    pub fn is_one_line(&self) -> bool
        ensures { IsTrue result ↔ IsOneLine (known_text (known_host_of self.now)) }
    {
        self.host_patterns.is_one_line() && self.public_key.is_one_line()
    }

    /// The same in memory of its own. Fails only when out of memory.
    pub fn try_clone(&self, alloc: Global) -> Result<Entry>
        ensures value { IfOk result (λ e. known_host_of e ≡ known_host_of self.now) }
        ensures algorithm { IfOk result (λ e. stored_algorithm (data_of (key_in e))
            ≡ stored_algorithm (data_of (key_in self.now))) }
        ensures memory { IfErr result (λ e. e ≡ wide.Memory) }
    {
        Ok(Entry {
            marker: self.marker,
            host_patterns: self.host_patterns.try_clone(alloc)?,
            public_key: self.public_key.try_clone(alloc)?,
        })
    }
}

/// The marker. A crate that calls it names `sshkey_known_hosts` too.
impl From<Entry> for Option<Marker> {
    ghost from_gives = { λ entry made. made ≡ marker_in entry };

    fn from(entry: Entry) -> Option<Marker> {
        entry.marker
    }
}

/// The hosts.
impl From<Entry> for HostPatterns {
    ghost from_gives = { λ entry made. made ≡ hosts_in entry };

    fn from(entry: Entry) -> HostPatterns {
        entry.host_patterns
    }
}

/// The key and its comment. A crate that calls it names `sshkey_known_hosts` too.
impl From<Entry> for PublicKey {
    ghost from_gives = { λ entry made. made ≡ key_in entry };

    fn from(entry: Entry) -> PublicKey {
        entry.public_key
    }
}
