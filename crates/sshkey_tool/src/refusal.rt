//! Why something is rejected, in one line.

ghost use Rattle.std.specs.Prelude.{IfOk, string_bytes};
ghost use Rattle.sshkey_tool.specs.Outcomes.{WritesRefusal};
ghost use Rattle.sshkey_tool.specs.Table.{IsFirstLine, IsRefusalLine};

use crate::output::write_line;
use sshkey_base::Error;
use std::alloc::{AllocError, Global};
use std::io::Write;

/// What is written where memory ran out.
const OUT_OF_MEMORY: [u8; 23] = *b"refused: out of memory\n";

/// What is written where the input could not be read.
const INPUT_FAULT: [u8; 19] = *b"refused: I/O error\n";

/// The text up to its first line end.
fn first_line(text: &str) -> &str
    ensures { IsFirstLine text.now result.now }
{
    match text.split_once('\n') {
        Some((line, _)) => line,
        None => text,
    }
}

/// The line that says why an input is rejected: one line, whatever the error's text.
pub(crate) fn refused_line(alloc: Global, error: &Error) -> Result<String, AllocError>
    ensures { IfOk result (λ line. IsRefusalLine (string_bytes line)) }
{
    let reason = format!(in alloc; "{error}")?;
    let line = first_line(reason.as_str());
    format!(in alloc; "refused: {line}\n")
}

/// Writes why nothing more is shown.
pub(crate) fn refuse<W: Write>(alloc: Global, error: &Error, output: &mut W) -> u8
    ensures { WritesRefusal error.now (W.contents output.old) (W.contents output.new) result }
{
    match error {
        Error::Memory => write_line(output, &OUT_OF_MEMORY, 1),
        Error::Io(_) => write_line(output, &INPUT_FAULT, 1),
        error => match refused_line(alloc, error) {
            Ok(line) => write_line(output, line.as_bytes(), 1),
            Err(_) => write_line(output, &OUT_OF_MEMORY, 1),
        },
    }
}
