//! The entries of a text or a file.

ghost use Rattle.std.specs.Prelude.{◌≡◌, ℕ, List};
ghost use Rattle.std.specs.Iterator.{item_count};
ghost use Rattle.sshkey_entries.specs.Entries.{entries};
ghost use Rattle.sshkey_entries.specs.Fields.{filled_lines};
ghost use Rattle.sshkey_entries.specs.KnownHosts.{IsKnownHost};
ghost use Rattle.sshkey_entries.specs.Answers.{AnswersEntry, ReadsFile, YieldsAnswers};
ghost use Rattle.sshkey_known_hosts.specs.HostEntries.{known_host_of};
ghost use Rattle.sshkey_known_hosts.specs.HostFaults.{HasFault, NeedsLine};

use crate::entry::Entry;
use crate::openssh::OpenSshKnownHosts;
use sshkey_base::Result;
use sshkey_entries::{EntryTexts, entries_of_file};
use std::alloc::Global;
use std::fs::Files;
use std::marker::Model;

/// The entries of a text: one answer for each, in order, which `Entry::from_line` gives.
///
/// An entry is a line up to its first `#`, without the white space at its end, where something is
/// left. A line that is rejected ends nothing: the next call answers the entry after it. The text
/// is borrowed, and what an entry keeps is copied.
///
/// Contracts see the list of the entries that are left.
#[derive(Drop)]
pub struct KnownHosts<'a> {
    alloc: Global,
    texts: EntryTexts<'a>,
}

impl<'a> Model for KnownHosts<'a> {
    ghost Value = { List (List ℕ) };

    ghost view = { λ s. s.texts };
}

impl<'a> KnownHosts<'a> {
    /// The entries of a text as the crate ssh-key reads it. Does not allocate.
    ///
    /// Do not decide on a host by it: it rejects revocations that ssh(1) reads, as one with two
    /// spaces after `@revoked`. Use `key_verdict`, or `openssh`.
    pub fn new(alloc: Global, text: &'a str) -> KnownHosts<'a>
        ensures { result ≡ entries text.now }
    {
        KnownHosts {
            alloc,
            texts: EntryTexts::new(text),
        }
    }

    /// The entries of a text as OpenSSH reads it. Does not allocate.
    pub fn openssh(alloc: Global, text: &'a str) -> OpenSshKnownHosts<'a>
        ensures { result ≡ filled_lines text.now }
    {
        OpenSshKnownHosts::new(alloc, text)
    }
}

impl KnownHosts<'_> {
    /// All entries of the text that a file holds, in order. Reads as `new` does: do not decide on a
    /// host by it.
    ///
    /// Fails with `Io` and the machine's fault if the file could not be read, with
    /// `Io(InvalidData)` if it is not UTF-8, with `Io(Other)` if its end is not met in 2^32 reads,
    /// with `Memory`, and else with the error of the first line that is no entry.
    pub fn read_file<R: Files>(rt: &R, alloc: Global, path: &str) -> Result<Vec<Entry>>
        ensures { ReadsFile known_host_of IsKnownHost result }
    {
        entries_of_file(rt, alloc, path)
    }
}

impl<'a> Iterator for KnownHosts<'a> {
    type Item = Result<Entry>;

    ghost next_gives = { YieldsAnswers
        (AnswersEntry known_host_of IsKnownHost HasFault NeedsLine) };

    ghost remaining = { item_count (λ left. left) };

    fn next(&mut self) -> Option<Result<Entry>> {
        let line = self.texts.next()?;
        Some(Entry::from_line(self.alloc, line))
    }
}
