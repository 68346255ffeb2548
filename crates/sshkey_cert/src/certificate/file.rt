//! Certificates in files.

ghost use Rattle.std.specs.Prelude.{IfOk};
ghost use Rattle.sshkey_model.specs.Certificates.{normal_certificate};
ghost use Rattle.sshkey_public.specs.PublicKeys.{WritesFile};
ghost use Rattle.sshkey_cert.specs.Certificates.{certificate_of, IsOfSomeLine};

use super::Certificate;
use sshkey_base::Result;
use sshkey_public::text_of_file;
use std::alloc::Global;
use std::fs::{self, Files};

impl Certificate {
    /// Reads the line that a file holds.
    ///
    /// Fails with `Io` and the machine's fault if the file could not be read to its end, with
    /// `Io(InvalidData)` if it is not UTF-8, with `Io(Other)` if its end is not met in 2^32 reads,
    /// with `Memory`, and else as `from_openssh` does.
    pub fn read_file<R: Files>(rt: &R, alloc: Global, path: &str) -> Result<Certificate>
        ensures { IfOk result IsOfSomeLine }
    {
        let text = text_of_file(rt, alloc, path)?;
        Certificate::from_openssh(alloc, text.as_str())
    }

    /// Writes the line of the certificate's normal form, with no line end, into a file, which is
    /// created, or emptied first.
    ///
    /// Fails as `to_openssh` does, before the file is touched, and with `Io` and the machine's
    /// fault if it could not be written.
    pub fn write_file<R: Files>(&self, rt: &R, alloc: Global, path: &str) -> Result<()>
        ensures { WritesFile (normal_certificate (certificate_of self.now)) result }
    {
        let text = self.to_openssh(alloc)?;
        fs::write(rt, path, text.as_str())?;
        Ok(())
    }
}
