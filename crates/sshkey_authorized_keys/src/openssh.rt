//! Entries as sshd(8) reads them.

ghost use Rattle.std.specs.Prelude.{◌≡◌, ◌<◌, ◌↔◌, ℕ, List, [], length, slice_index, IsTrue};
ghost use Rattle.std.specs.Iterator.{item_count};
ghost use Rattle.sshkey_entries.specs.Entries.{hash_sign};
ghost use Rattle.sshkey_entries.specs.Fields.{AreNoKeyFields, filled_lines, is_blank};
ghost use Rattle.sshkey_entries.specs.OpenSshLines.{IsAuthorizedLine, IsAfterOptions};
ghost use Rattle.sshkey_entries.specs.Answers.{ReadsEntry, RefusesFor, YieldsAnswers};
ghost use Rattle.sshkey_authorized_keys.specs.OpenSshEntries.{openssh_entry_of, openssh_key_in, openssh_options_of, CutsOptions, FindsEnd, HasLineFault, HasTextFault, EndsHere, AnswersLine, AsksFor, NeedsAfterOptions, NeedsEntry};

use crate::entry::Entry;
use crate::openssh_options::OpenSshOptions;
use crate::option_syntax::is_plain_quote;
use sshkey_base::{Error, Result};
use sshkey_entries::{NonBlankLines, read_key_fields, skip_blanks};
use sshkey_public::PublicKey;
use std::alloc::Global;
use std::marker::Model;

/// An entry as sshd(8) reads it: options, if there are any, and a key with its comment.
#[derive(Debug, Drop)]
pub struct OpenSshEntry {
    options: OpenSshOptions,
    public_key: PublicKey,
}

fn is_blank(byte: u8) -> bool
    ensures { result ≡ is_blank byte }
{
    byte == b' ' || byte == b'\t'
}

fn is_comment(line: &str) -> bool
    ensures { IsTrue result ↔ (slice_index line.now 0 ≡ hash_sign) }
{
    line.starts_with('#')
}

fn ends_here(text: &[u8], place: usize, inside: bool) -> bool
    requires { place < length text.now }
    ensures { IsTrue result ↔ EndsHere (slice_index text.now place) inside }
{
    is_blank(text[place]) && !inside
}

/// The place of the first space or tab outside quotes.
fn options_end(text: &[u8]) -> Option<usize>
    ensures { FindsEnd text.now result }
{
    let mut inside = false;
    for index in 0..text.len() {
        if ends_here(text, index, inside) {
            return Some(index);
        }
        if is_plain_quote(text, index) {
            inside = !inside;
        }
    }
    None
}

/// The options that stand in front of a text as sshd(8) reads it: up to its first space or tab
/// outside double quotes, where a quote after a backslash is none; and what follows from there.
/// `None` if no such space or tab stands in it. Does not allocate.
pub fn split_options(text: &str) -> Option<(&str, &str)>
    ensures { CutsOptions text.now result }
{
    match options_end(text.as_bytes()) {
        Some(end) => Some(text.split_at(end)),
        None => None,
    }
}

/// What `split_options` says, of any bytes. Does not allocate.
pub fn bytes_split_options(text: &[u8]) -> Option<(&[u8], &[u8])>
    ensures { CutsOptions text.now result }
{
    match options_end(text) {
        Some(end) => Some(text.split_at(end)),
        None => None,
    }
}

impl Entry {
    /// The entry of a line as sshd(8) reads it ("AUTHORIZED_KEYS FILE FORMAT").
    ///
    /// Spaces and tabs in front are passed over. If a key stands there, the name of its algorithm
    /// and its padded Base64, there are no options. Else options come first and end at the first
    /// space or tab outside double quotes, where a quote after a backslash is none, and the key
    /// follows. After the key stands the comment, which is all the rest, a `#` too. Any number of
    /// spaces and tabs stands between. So these lines are read, which `from_line` rejects:
    ///
    ///     command="dump /home",no-pty ssh-ed25519 AAAA..
    ///     restrict    ssh-ed25519 AAAA.. nightly job # 3
    ///
    /// Unless memory runs out, it fails exactly if the line is no such entry: `FormatEncoding`
    /// where a `#` begins it, and where neither a key begins it nor options have an end, as in an
    /// empty line and where quotes stay open; `Length` where after options, or alone, no Base64
    /// stands; and else the errors of `sshkey_entries::read_key_fields`.
    ///
    /// Fails with `Memory` only if `sshkey_entries::read_key_fields` may answer it, of the line or
    /// of what stands after its options, and for the options of an entry: never of a comment.
    ///
    /// The options are kept as they stand, also those that sshd does not know; sshd rejects a line
    /// with one of these. A key of whatever kind this library reads is read, private-use names too,
    /// and a name is compared as it stands.
    ///
    /// A zero byte is a byte like others here, while sshd(8) ends the line at it: for a login,
    /// reject an entry whose options hold one.
    pub fn from_line_openssh(alloc: Global, line: &str) -> Result<OpenSshEntry>
        ensures reads { ReadsEntry openssh_entry_of IsAuthorizedLine line.now result }
        ensures fault { RefusesFor HasLineFault line.now result }
        ensures asks { AsksFor (NeedsEntry line.now) result }
    {
        let text = skip_blanks(line);
        if is_comment(text) {
            return Err(Error::FormatEncoding);
        }
        let error = match read_key_fields(alloc, text) {
            Ok(public_key) => return Ok(OpenSshEntry::alone(alloc, public_key)),
            Err(error) => error,
        };
        if error.is_memory() {
            return Err(error);
        }
        OpenSshEntry::after_options(alloc, text)
    }
}

impl OpenSshEntry {
    /// The entry of a key without options. Does not allocate.
    fn alone(alloc: Global, public_key: PublicKey) -> OpenSshEntry
        ensures options { openssh_options_of result ≡ [] }
        ensures key { openssh_key_in result ≡ public_key }
    {
        OpenSshEntry {
            options: OpenSshOptions::none(alloc),
            public_key,
        }
    }

    /// The entry of a text that no key begins.
    fn after_options(alloc: Global, text: &str) -> Result<OpenSshEntry>
        requires { AreNoKeyFields text.now }
        ensures reads { ReadsEntry openssh_entry_of IsAfterOptions text.now result }
        ensures fault { RefusesFor HasTextFault text.now result }
        ensures asks { AsksFor (NeedsAfterOptions text.now) result }
    {
        let Some((front, rest)) = split_options(text) else {
            return Err(Error::FormatEncoding);
        };
        let public_key = read_key_fields(alloc, skip_blanks(rest))?;
        let options = OpenSshOptions::copied(alloc, front)?;
        Ok(OpenSshEntry {
            options,
            public_key,
        })
    }

    /// The options.
    pub fn options(&self) -> &OpenSshOptions
        ensures { result.now ≡ openssh_options_of self.now }
    {
        &self.options
    }

    /// The key and its comment.
    pub fn public_key(&self) -> &PublicKey
        ensures { result.now ≡ openssh_key_in self.now }
    {
        &self.public_key
    }
}

/// The entries of a text as sshd(8) reads it: one answer for each, in order, which
/// `Entry::from_line_openssh` gives.
///
/// An entry is a line with more than spaces and tabs, whose first other character is no `#`. A line
/// that is rejected ends nothing: the next call answers the entry after it. The text is borrowed,
/// and what an entry keeps is copied.
///
/// Contracts see the list of the lines that are left, without the spaces and tabs at their front.
#[derive(Drop)]
pub struct OpenSshAuthorizedKeys<'a> {
    alloc: Global,
    lines: NonBlankLines<'a>,
}

impl<'a> Model for OpenSshAuthorizedKeys<'a> {
    ghost Value = { List (List ℕ) };

    ghost view = { λ s. s.lines };
}

impl<'a> OpenSshAuthorizedKeys<'a> {
    pub(crate) fn new(alloc: Global, text: &'a str) -> OpenSshAuthorizedKeys<'a>
        ensures { result ≡ filled_lines text.now }
    {
        OpenSshAuthorizedKeys {
            alloc,
            lines: NonBlankLines::new(text),
        }
    }
}

impl<'a> Iterator for OpenSshAuthorizedKeys<'a> {
    type Item = Result<OpenSshEntry>;

    ghost next_gives = { YieldsAnswers AnswersLine };

    ghost remaining = { item_count (λ left. left) };

    fn next(&mut self) -> Option<Result<OpenSshEntry>> {
        let line = self.lines.next()?;
        Some(Entry::from_line_openssh(self.alloc, line))
    }
}
