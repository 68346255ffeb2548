//! Writing the output.

ghost use Rattle.sshkey_tool.specs.Lines.{WritesWhole, WritesWithStatus};

use std::io::{ErrorKind, Write};

/// How often the output is written at most, for one line.
const MOST_WRITES: u64 = 0x1_0000_0000;

/// Writes a line whole, or a beginning of it, and says whether it is whole.
pub(crate) fn is_written<W: Write>(output: &mut W, line: &[u8]) -> bool
    ensures { WritesWhole (W.contents output.old) (W.contents output.new) line.now result }
{
    let mut written = 0;
    'writes: for _ in 0..MOST_WRITES {
        if written == line.len() {
            return true;
        }
        match output.write(&line[written..]) {
            Ok(0) => return false,
            Ok(count) => written += count,
            Err(error) => match error.kind() {
                ErrorKind::Interrupted => {}
                _ => return false,
            },
        }
    }
    written == line.len()
}

/// Writes a line, and answers its status; the status is 1 where it could not be written whole.
pub(crate) fn write_line<W: Write>(output: &mut W, line: &[u8], status: u8) -> u8
    ensures { WritesWithStatus (W.contents output.old) (W.contents output.new) line.now status
        result }
{
    if is_written(output, line) { status } else { 1 }
}
