//! The program.

ghost use Rattle.std.specs.Prelude.{◌≡◌};
ghost use Rattle.sshkey_tool.specs.Outcomes.{WritesOutcome};
ghost use Rattle.sshkey_tool.specs.Table.{Runs, IsNoCommand, texts};

use crate::command::Command;
use crate::entries::write_entries;
use crate::output::write_line;
use crate::refusal::refuse;
use crate::shown::{shown_of_certificate_line, shown_of_key_line};
use sshkey_base::Error;
use sshkey_public::read_text;
use std::alloc::Global;
use std::io::{Read, Write};

/// How the program is used.
const USAGE: [u8; 84] =
    *b"usage: sshkey fingerprint | art <header> | normal | cert [principal] | keys | hosts\n";

/// Writes what is shown of an input, or why nothing is.
fn answer<W: Write>(alloc: Global, outcome: &Result<String, Error>, output: &mut W) -> u8
    ensures { WritesOutcome outcome.now (W.contents output.old) (W.contents output.new) result }
{
    match outcome {
        Ok(text) => write_line(output, text.as_bytes(), 0),
        Err(error) => refuse(alloc, error, output),
    }
}

/// Answers the words and the input on the output, and says by a status how it went.
///
/// 2 for words that are no command, after a line that says how the program is used; nothing of the
/// input is read then. 1 after `refused:` and the reason, where the input is not UTF-8 or is a
/// line of no key, for `cert` of no certificate; where memory or the input failed; and where the
/// output failed, which then holds only a beginning of what is shown. Else 0, after the SHA-256
/// fingerprint of the key for `fingerprint`, for `art` after its random art under the header that
/// follows the word, for `normal` after the line that is written of the key and its comment, and
/// for `cert` after the fields of the certificate, a line each, and where a principal follows the
/// word, a line that says whether the certificate allows it. For `keys` and `hosts` the text of
/// each entry of the file is written, or `refused:` and why the entry is none, and the status is 1
/// if one of them was rejected; where memory runs out, the lines of the entries before stand, and
/// after them the line that says so. These lines are kept until they have 65,536 bytes, and written
/// then, so the calls of `write` are few. Each line has a line end, and a reason is one line. A
/// header, a key id, a principal and an option stand as they are, line ends and control characters
/// too.
///
/// What is shown or rejected is the table's of all bytes of an input whose reader tells them
/// (`remaining`); of another input no more is said than that the line is one of the command's, or
/// for `keys` and `hosts` that the lines are those of the entries of some file. What was written is
/// said of an output that tells what it holds (`contents`).
pub fn run<R: Read, W: Write>(alloc: Global, words: &[&str], input: &mut R, output: &mut W) -> u8
    ensures runs { Runs (texts words.now) (R.remaining input.old)
        (W.contents output.old) (W.contents output.new) result }
    ensures untouched { IsNoCommand (texts words.now) → input.new ≡ input.old }
{
    let Some(command) = Command::from_words(words) else {
        return write_line(output, &USAGE, 2);
    };
    let text = match read_text(alloc, input) {
        Ok(text) => text,
        Err(error) => return refuse(alloc, &error, output),
    };
    match command {
        Command::Key(command) => {
            let outcome = shown_of_key_line(alloc, command, &text);
            answer(alloc, &outcome, output)
        }
        Command::Certificate(wanted) => {
            let outcome = shown_of_certificate_line(alloc, wanted, &text);
            answer(alloc, &outcome, output)
        }
        Command::Entries(file) => write_entries(alloc, file, &text, output),
    }
}
