//! The program `sshkey`: reads standard input whole, the line of a key or of a certificate or an
//! entry file, and writes standard output.
//!
//! # What is proved, tested and trusted
//!
//! Of `main` only safety is proved. What it writes is `sshkey_tool`'s.
#![tactic(auto)]

use sshkey_tool::run;
use std::alloc::Global;
use std::env;
use std::io::{self, ErrorKind, Write};
use std::process::ExitCode;
use std::rt::Env;

/// The words after the program's name; none if one of them is not UTF-8.
fn words<R: Env + AllocGlobal>(rt: &R) -> io::Result<Vec<String>> {
    match env::args(rt) {
        Ok(all) => Ok(all.skip(1).collect(rt.alloc())?),
        Err(error) => match error.kind() {
            ErrorKind::InvalidData => Ok(Vec::new(rt.alloc())),
            _ => Err(error),
        },
    }
}

fn main(rt: HostRuntime) -> ExitCode {
    let mut output = io::writer(&rt);
    let mut input = rt.reader();
    let words = match words(&rt) {
        Ok(words) => words,
        Err(error) => {
            let _ = match error.kind() {
                ErrorKind::OutOfMemory => writeln!(output, "refused: out of memory"),
                _ => writeln!(output, "refused: I/O error"),
            };
            return ExitCode::from(1);
        }
    };
    let Ok(words) = words
        .iter()
        .map(|word| word.as_str())
        .collect::<Vec<&str>>(rt.alloc())
    else {
        let _ = writeln!(output, "refused: out of memory");
        return ExitCode::from(1);
    };
    ExitCode::from(run(rt.alloc(), &words, &mut input, &mut output))
}
