//! Public keys in files.

ghost use Rattle.std.specs.Prelude.{IfOk};
ghost use Rattle.sshkey_model.specs.Keys.{normal_key};
ghost use Rattle.sshkey_public.specs.PublicKeys.{public_of, IsOfSomeLine, WritesFile};

use super::PublicKey;
use crate::file::text_of_file;
use sshkey_base::Result;
use std::alloc::Global;
use std::fs::{self, Files};

impl PublicKey {
    /// Reads the line that a file holds.
    ///
    /// Fails with `Io` and the machine's fault if the file could not be read to its end, whatever
    /// was read before, with `Io(InvalidData)` if it is not UTF-8, with `Io(Other)` if its end is
    /// not met in 2^32 reads, and else as `from_openssh` does.
    ///
    /// If text follows the first line, that line is read as the key only if a comment, or a space,
    /// follows its key, and all further lines are part of the comment: check `is_one_line`.
    /// Otherwise such a file is rejected. `AuthorizedKeys` and `KnownHosts` read files of several
    /// lines.
    pub fn read_openssh_file<R: Files>(rt: &R, alloc: Global, path: &str) -> Result<PublicKey>
        ensures { IfOk result IsOfSomeLine }
    {
        let text = text_of_file(rt, alloc, path)?;
        PublicKey::from_openssh(alloc, text.as_str())
    }

    /// Writes the line of the key's normal form and a line end into a file, which is created, or
    /// emptied first.
    ///
    /// Fails as `to_openssh` does, before the file is touched, and with `Io` and the machine's
    /// fault if it could not be written.
    pub fn write_openssh_file<R: Files>(&self, rt: &R, alloc: Global, path: &str) -> Result<()>
        ensures { WritesFile (normal_key (public_of self.now)) result }
    {
        let mut text = self.to_openssh(alloc)?;
        text.push('\n')?;
        fs::write(rt, path, text.as_str())?;
        Ok(())
    }
}
