//! Texts in files.

ghost use Rattle.std.specs.Prelude.{◌≢◌, IfErr};
ghost use Rattle.sshkey_base.specs.Causes.{IsMachineFault};
ghost use Rattle.sshkey_base.specs.declared.error.Error.TheVariants.{Io};
ghost use Rattle.sshkey_public.specs.Inputs.{ReadsFileText};

use crate::read::read_text;
use sshkey_base::{Error, Result, encoding};
use std::alloc::Global;
use std::fs::{File, Files};
use std::io::{ErrorKind, Read};

/// All the text that a file has left. What is not UTF-8 is `Io(InvalidData)`, as it is to std.
fn file_text<R: Read>(alloc: Global, file: &mut R) -> Result<String>
    ensures text { ReadsFileText (R.remaining file.old) result }
    ensures again { IfErr result (λ e. e ≢ Io ErrorKind.Interrupted) }
{
    match read_text(alloc, file) {
        Err(Error::Encoding(encoding::Error::CharacterEncoding)) => {
            Err(Error::Io(ErrorKind::InvalidData))
        }
        other => other,
    }
}

/// The text of a file, from its beginning to its end.
///
/// Fails with `Io` and the machine's fault if the file can't be opened or a read fails, whatever
/// was read before it, with `Io(InvalidData)` if the file is not UTF-8, with `Io(Other)` if its end
/// is not met in 2^32 reads, and `Memory`.
pub fn text_of_file<R: Files>(rt: &R, alloc: Global, path: &str) -> Result<String>
    ensures { IfErr result IsMachineFault }
{
    let mut file = File::open(rt, path)?;
    file_text(alloc, &mut file)
}
