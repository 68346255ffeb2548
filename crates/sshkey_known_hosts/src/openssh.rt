//! Entries as OpenSSH reads them.

ghost use Rattle.std.specs.Prelude.{◌≡◌, ◌↔◌, ℕ, List, IfErr, IsTrue, slice_index};
ghost use Rattle.std.specs.Iterator.{item_count};
ghost use Rattle.sshkey_base.specs.Causes.{cause, NoMemory};
ghost use Rattle.sshkey_entries.specs.Entries.{hash_sign};
ghost use Rattle.sshkey_entries.specs.Fields.{filled_lines};
ghost use Rattle.sshkey_entries.specs.KnownHosts.{at_sign};
ghost use Rattle.sshkey_entries.specs.OpenSshLines.{EndsMarker, IsHostLine};
ghost use Rattle.sshkey_entries.specs.Answers.{ReadsEntry, RefusesFor, YieldsAnswers};
ghost use Rattle.sshkey_model.specs.Lines.{IsWithout, space};
ghost use Rattle.sshkey_known_hosts.specs.HostEntries.{known_host_of, marker_of, AnswersHostLine, HasLineFault, NeedsHostLine, SplitsMarkerField};

use crate::entry::Entry;
use crate::host_patterns::HostPatterns;
use crate::marker::Marker;
use sshkey_base::{Error, Result};
use sshkey_entries::{NonBlankLines, read_key_fields, skip_blanks, split_blank};
use std::alloc::Global;
use std::marker::Model;
use std::str::FromStr;

pub(crate) fn is_comment(text: &str) -> bool
    ensures { IsTrue result ↔ (slice_index text.now 0 ≡ hash_sign) }
{
    text.starts_with('#')
}

fn is_marked(text: &str) -> bool
    ensures { IsTrue result ↔ (slice_index text.now 0 ≡ at_sign) }
{
    text.starts_with('@')
}

fn begins_with_space(text: &str) -> bool
    ensures { IsTrue result ↔ (slice_index text.now 0 ≡ space) }
{
    text.starts_with(' ')
}

fn is_without_space(text: &str) -> bool
    ensures { IsTrue result ↔ IsWithout space text.now }
{
    !text.contains(' ')
}

/// Whether ssh ends that marker before the text: the one of an authority at a tab only where no
/// space follows.
fn ends_marker(marker: Marker, after: &str) -> bool
    ensures { IsTrue result ↔ EndsMarker (marker_of marker) after.now }
{
    match marker {
        Marker::CertAuthority => begins_with_space(after) || is_without_space(after),
        Marker::Revoked => true,
    }
}

/// The marker of a text, and what follows it: no second marker.
fn split_marker_field(text: &str) -> Result<(Option<Marker>, &str)>
    ensures { SplitsMarkerField text.now result }
{
    if !is_marked(text) {
        return Ok((None, text));
    }
    let (word, after) = split_blank(text);
    let marker = Marker::from_str(word)?;
    if !ends_marker(marker, after) {
        return Err(Error::FormatEncoding);
    }
    let rest = skip_blanks(after);
    if is_marked(rest) {
        return Err(Error::FormatEncoding);
    }
    Ok((Some(marker), rest))
}

impl Entry {
    /// The entry of a line as OpenSSH reads it (sshd(8), "SSH_KNOWN_HOSTS FILE FORMAT").
    ///
    /// Spaces and tabs in front are passed over, and any number of them stands between the fields:
    /// a marker, where an `@` stands at the front, the hosts, the name of the key's algorithm and
    /// its padded Base64. All the rest is the comment, a `#` too. `@cert-authority` before a tab is
    /// a marker only if no space follows in the line, as for ssh; `@revoked` always is.
    ///
    /// Unless memory runs out, it fails exactly if the line is no such entry: `FormatEncoding`
    /// where a zero byte stands in it, at which OpenSSH takes the hosts to end, where a `#` begins
    /// it, for another marker and for a second one; then the errors of `HostPatterns::from_text`,
    /// and then `Length` where no Base64 stands after the hosts, or else the errors of
    /// `sshkey_entries::read_key_fields`.
    ///
    /// Memory is taken for the hosts and what follows them: a line with a zero byte, a comment,
    /// another marker and hosts that are empty or have no `|` after their salt never fail with
    /// `Memory`.
    ///
    /// A line that is rejected says nothing of its hosts: treat an `Err` as no verdict on any host,
    /// and do not pass over it.
    pub fn from_line_openssh(alloc: Global, line: &str) -> Result<Entry>
        ensures reads { ReadsEntry known_host_of IsHostLine line.now result }
        ensures fault { RefusesFor HasLineFault line.now result }
        ensures asks { IfErr result (λ e. cause e ≡ NoMemory → NeedsHostLine line.now) }
    {
        if line.contains('\0') {
            return Err(Error::FormatEncoding);
        }
        let text = skip_blanks(line);
        if is_comment(text) {
            return Err(Error::FormatEncoding);
        }
        let (marker, unmarked) = split_marker_field(text)?;
        let (hosts, rest) = split_blank(unmarked);
        let host_patterns = HostPatterns::from_text(alloc, hosts)?;
        let public_key = read_key_fields(alloc, skip_blanks(rest))?;
        Ok(Entry {
            marker,
            host_patterns,
            public_key,
        })
    }
}

/// The entries of a text as OpenSSH reads it: one answer for each, in order, which
/// `Entry::from_line_openssh` gives.
///
/// An entry is a line with more than spaces and tabs, whose first other character is no `#`. A line
/// that is rejected ends nothing: the next call answers the entry after it. The text is borrowed,
/// and what an entry keeps is copied.
///
/// Contracts see the list of the lines that are left, without the spaces and tabs at their front.
#[derive(Drop)]
pub struct OpenSshKnownHosts<'a> {
    alloc: Global,
    lines: NonBlankLines<'a>,
}

impl<'a> Model for OpenSshKnownHosts<'a> {
    ghost Value = { List (List ℕ) };

    ghost view = { λ s. s.lines };
}

impl<'a> OpenSshKnownHosts<'a> {
    pub(crate) fn new(alloc: Global, text: &'a str) -> OpenSshKnownHosts<'a>
        ensures { result ≡ filled_lines text.now }
    {
        OpenSshKnownHosts {
            alloc,
            lines: NonBlankLines::new(text),
        }
    }
}

impl<'a> Iterator for OpenSshKnownHosts<'a> {
    type Item = Result<Entry>;

    ghost next_gives = { YieldsAnswers AnswersHostLine };

    ghost remaining = { item_count (λ left. left) };

    fn next(&mut self) -> Option<Result<Entry>> {
        let line = self.lines.next()?;
        Some(Entry::from_line_openssh(self.alloc, line))
    }
}
