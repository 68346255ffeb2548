//! Where the lines of a text of known_hosts stand, for whoever keeps the text and a buffer of places.

ghost use Rattle.std.specs.Prelude.{◌≡◌, ◌≤◌, ◌<◌, ◌↔◌, ◌∷◌, [], ℕ, List, IsTrue, IfOk, IfErr, length, take};
ghost use Rattle.std.specs.Str.Lines.{lines};
ghost use Rattle.sshkey_base.specs.declared.error.Error.TheVariants as wide;
ghost use Rattle.sshkey_entries.specs.Fields.{filled_lines};
ghost use Rattle.sshkey_entries.specs.HostVerdicts.{known_name, standard_port};
ghost use Rattle.sshkey_known_hosts.specs.HeldLines.{lines_of, ArePlacesOf, total_length, SaySame};
ghost use Rattle.sshkey_known_hosts.specs.HeldNames.{TellsNames};

use crate::held::{STANDARD_PORT, name_hash, names_of_line};
use crate::held_line::is_among;
use crate::host_name::known_name;
use sshkey_base::Result;
use sshkey_entries::bytes::{is_filled, skip_blanks, split_line};
use std::alloc::Global;

/// A line of a text of known_hosts: how many bytes it has, with its end, and for which names it may
/// be.
#[repr(C)]
#[derive(Clone, Copy, Debug)]
pub struct LinePlace {
    /// How many bytes it has, with its end.
    pub length: usize,
    /// The bits of the hashes of its names.
    pub names: u64,
}

/// A text of known_hosts and the places of its lines (`place_lines`), one after the other.
#[repr(C)]
#[derive(Clone, Copy, Debug)]
pub struct PlacedText<'a> {
    /// The text.
    pub text: &'a [u8],
    /// The places of its lines.
    pub places: &'a [LinePlace],
}

/// The bits of the hashes of the names that the one line of a text may be for, given without its end.
fn names_of(line: &[u8]) -> u64
    ensures { (text : List ℕ) → lines text ≡ line.now ∷ [] → TellsNames result text }
{
    let filled = skip_blanks(line);
    if is_filled(filled) {
        names_of_line(filled)
    } else {
        0
    }
}

/// How many lines a text has, also those that are empty or comments.
fn count_lines(text: &[u8]) -> usize
    ensures { result ≡ length (lines text.now) }
{
    let mut count = 0;
    let mut left = text;
    'lines: while !left.is_empty() {
        let (_, after) = split_line(left);
        count += 1;
        left = after;
    }
    count
}

/// Writes the places of the lines.
fn write_places(text: &[u8], places: &mut [LinePlace])
    requires { length places.old ≡ length (lines text.now) }
    ensures { ArePlacesOf places.new text.now }
{
    let mut count = 0;
    let mut left = text;
    'lines: while !left.is_empty() {
        let (line, after) = split_line(left);
        places[count] = LinePlace {
            length: left.len() - after.len(),
            names: names_of(line),
        };
        count += 1;
        left = after;
    }
}

/// Writes the places of the text's lines to the front of these, and returns how many they are. Where
/// they are more than these, it writes none. Takes no memory.
pub fn place_lines(text: &[u8], places: &mut [LinePlace]) -> usize
    ensures count { result ≡ length (lines text.now) }
    ensures places { result ≤ length places.old → ArePlacesOf (take result places.new) text.now }
    ensures same { length places.old < result → places.new ≡ places.old }
{
    let count = count_lines(text);
    if count <= places.len() {
        write_places(text, &mut places[..count]);
    }
    count
}

impl<'a> PlacedText<'a> {
    /// Whether the places are together as long as the text.
    pub fn is_whole(&self) -> bool
        ensures { IsTrue result ↔ (total_length self.now.places.now ≡ length self.now.text.now) }
    {
        let mut left = self.text.len();
        let mut places = self.places;
        'places: while let Some((place, more)) = places.split_first() {
            if left < place.length {
                return false;
            }
            left -= place.length;
            places = more;
        }
        left == 0
    }

    /// The texts of those lines that may be for the host at that port, or for its plain name, as
    /// `texts_for` has them of held lines, where the places are those that `place_lines` wrote of
    /// this text. Of others nothing is said.
    ///
    /// Fails only when out of memory, which the host's name takes.
    pub fn texts_for(&self, alloc: Global, host: &str, port: u16) -> Result<Vec<&'a [u8]>>
        requires { total_length self.now.places.now ≡ length self.now.text.now }
        ensures own { IfOk result (λ texts. ArePlacesOf self.now.places.now self.now.text.now
            → (hmac : List ℕ → List ℕ → List ℕ) → SaySame hmac (known_name host.now port)
            (filled_lines self.now.text.now) (lines_of texts.items)) }
        ensures plain { IfOk result (λ texts. ArePlacesOf self.now.places.now self.now.text.now
            → (hmac : List ℕ → List ℕ → List ℕ) → SaySame hmac (known_name host.now standard_port)
            (filled_lines self.now.text.now) (lines_of texts.items)) }
        ensures memory { IfErr result (λ e. e ≡ wide.Memory) }
    {
        let own = name_hash(known_name(alloc, host, port)?.as_str().as_bytes());
        let plain = name_hash(known_name(alloc, host, STANDARD_PORT)?.as_str().as_bytes());
        let mut texts = Vec::new(alloc);
        let mut left = self.text;
        let mut places = self.places;
        'places: while let Some((place, more)) = places.split_first() {
            let (line, after) = left.split_at(place.length);
            if is_among(place.names, own) || is_among(place.names, plain) {
                texts.push(line)?;
            }
            left = after;
            places = more;
        }
        Ok(texts)
    }
}
