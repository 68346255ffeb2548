//! Reading an input to its end.

ghost use Rattle.std.specs.Prelude.{◌≡◌, ◌≢◌, IfOk, IfErr, IfSome, OnOk};
ghost use Rattle.std.specs.Io.KnownBytes.{IsAtEnd};
ghost use Rattle.sshkey_base.specs.Causes.{IsMachineFault};
ghost use Rattle.sshkey_base.specs.declared.error.Error.TheVariants.{Io};
ghost use Rattle.sshkey_public.specs.Inputs.{IsPassed, ReadsText};

use sshkey_base::{Error, Result, encoding};
use std::alloc::Global;
use std::io::{ErrorKind, Read};

/// How often an input is read at most.
const MOST_READS: u64 = 0x1_0000_0000;

/// All the bytes that an input has left, to its end.
///
/// Fails with `Io` and the machine's fault if a read fails, whatever was read before it, but a read
/// that was interrupted is made again; with `Io(Other)` if the end is not met in 2^32 reads, and
/// `Memory`. After an error some of the bytes are passed.
pub fn read_all<R: Read>(alloc: Global, input: &mut R) -> Result<Vec<u8>>
    ensures bytes { IfOk result (λ v. IfSome (R.remaining input.old) (λ bytes. v.items ≡ bytes)) }
    ensures end { OnOk result (IsAtEnd (R.remaining input.new)) }
    ensures passed { IsPassed (R.remaining input.old) (R.remaining input.new) }
    ensures fault { IfErr result IsMachineFault }
    ensures again { IfErr result (λ e. e ≢ Io ErrorKind.Interrupted) }
{
    read_within(alloc, input, MOST_READS)
}

/// The same, if the end is met in that many reads; else it fails with `Io(Other)` after them.
pub fn read_within<R: Read>(alloc: Global, input: &mut R, most_reads: u64) -> Result<Vec<u8>>
    ensures bytes { IfOk result (λ v. IfSome (R.remaining input.old) (λ bytes. v.items ≡ bytes)) }
    ensures end { OnOk result (IsAtEnd (R.remaining input.new)) }
    ensures passed { IsPassed (R.remaining input.old) (R.remaining input.new) }
    ensures fault { IfErr result IsMachineFault }
    ensures again { IfErr result (λ e. e ≢ Io ErrorKind.Interrupted) }
{
    let mut bytes = Vec::new(alloc);
    let mut buffer = [0u8; 4096];
    'reads: for _ in 0..most_reads {
        match input.read(&mut buffer) {
            Ok(0) => return Ok(bytes),
            Ok(count) => bytes.extend_from_slice(&buffer[..count])?,
            Err(error) => match error.kind() {
                ErrorKind::Interrupted => {}
                ErrorKind::OutOfMemory => return Err(Error::Memory),
                kind => return Err(Error::Io(kind)),
            },
        }
    }
    Err(Error::Io(ErrorKind::Other))
}

/// The same as a text: all that an input has left, which has to be UTF-8.
///
/// Fails with `CharacterEncoding` if it is not, and else as `read_all` does.
pub fn read_text<R: Read>(alloc: Global, input: &mut R) -> Result<String>
    ensures text { ReadsText (R.remaining input.old) result }
    ensures end { OnOk result (IsAtEnd (R.remaining input.new)) }
    ensures passed { IsPassed (R.remaining input.old) (R.remaining input.new) }
    ensures again { IfErr result (λ e. e ≢ Io ErrorKind.Interrupted) }
{
    let bytes = read_all(alloc, input)?;
    match String::from_utf8(bytes) {
        Ok(text) => Ok(text),
        Err(_) => Err(Error::Encoding(encoding::Error::CharacterEncoding)),
    }
}
