//! The marker at the front of a line, byte by byte.

ghost use Rattle.std.specs.Prelude.{◌≡◌, ◌↔◌, IsTrue, slice_index};
ghost use Rattle.sshkey_entries.specs.Entries.{hash_sign};
ghost use Rattle.sshkey_entries.specs.KnownHosts.{at_sign, marker_text};
ghost use Rattle.sshkey_entries.specs.OpenSshLines.{EndsMarker};
ghost use Rattle.sshkey_model.specs.Lines.{IsWithout, space};
ghost use Rattle.sshkey_known_hosts.specs.HostEntries.{ReadsMarker, marker_of, SplitsMarkerField};

use crate::marker::Marker;
use memchr::memchr;
use sshkey_base::{Error, Result};
use sshkey_entries::bytes::{skip_blanks, split_blank};

pub(crate) fn is_comment(text: &[u8]) -> bool
    ensures { IsTrue result ↔ (slice_index text.now 0 ≡ hash_sign) }
{
    matches!(text, [b'#', ..])
}

fn is_marked(text: &[u8]) -> bool
    ensures { IsTrue result ↔ (slice_index text.now 0 ≡ at_sign) }
{
    matches!(text, [b'@', ..])
}

fn begins_with_space(text: &[u8]) -> bool
    ensures { IsTrue result ↔ (slice_index text.now 0 ≡ space) }
{
    matches!(text, [b' ', ..])
}

/// Whether the byte stands nowhere in the text.
pub(crate) fn is_without(byte: u8, text: &[u8]) -> bool
    ensures { IsTrue result ↔ IsWithout byte text.now }
{
    match memchr(byte, text) {
        Some(_) => false,
        None => true,
    }
}

/// Whether ssh ends that marker before the text: the one of an authority at a tab only where no
/// space follows.
fn ends_marker(marker: Marker, after: &[u8]) -> bool
    ensures { IsTrue result ↔ EndsMarker (marker_of marker) after.now }
{
    match marker {
        Marker::CertAuthority => begins_with_space(after) || is_without(b' ', after),
        Marker::Revoked => true,
    }
}

fn is_marker(word: &[u8], marker: Marker) -> bool
    ensures { IsTrue result ↔ (word.now ≡ marker_text (marker_of marker)) }
{
    word == marker.as_str().as_bytes()
}

fn read_marker(word: &[u8]) -> Result<Marker>
    ensures { ReadsMarker word.now result }
{
    if is_marker(word, Marker::CertAuthority) {
        return Ok(Marker::CertAuthority);
    }
    if is_marker(word, Marker::Revoked) {
        return Ok(Marker::Revoked);
    }
    Err(Error::FormatEncoding)
}

/// The marker of a text, and what follows it: no second marker.
pub(crate) fn split_marker_bytes(text: &[u8]) -> Result<(Option<Marker>, &[u8])>
    ensures { SplitsMarkerField text.now result }
{
    if !is_marked(text) {
        return Ok((None, text));
    }
    let (word, after) = split_blank(text);
    let marker = read_marker(word)?;
    if !ends_marker(marker, after) {
        return Err(Error::FormatEncoding);
    }
    let rest = skip_blanks(after);
    if is_marked(rest) {
        return Err(Error::FormatEncoding);
    }
    Ok((Some(marker), rest))
}
