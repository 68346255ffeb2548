//! The program over inputs and outputs that fail. What it answers on lines is in the table of
//! `sshkey_cases`.

use super::failing::{Counted, Failing, Narrow};
use sshkey_tool::run;
use std::alloc::{AllocError, Global};
use std::io::ErrorKind;

const LINE: &[u8] =
    b"ssh-ed25519 AAAAC3NzaC1lZDI1NTE5AAAAILM+rvN+ot98qgEN796jTiQfZfG1KaT0PtFDJ/XFSqti user@example.com\r\n";

const SHOWN: &[u8] = b"SHA256:UCUiLr7Pjs9wFFJMDByLgc3NrtdU344OgUM45wZPcIQ\n";

const ENTRIES: &[u8] =
    b"ssh-ed25519 AAAAC3NzaC1lZDI1NTE5AAAAILM+rvN+ot98qgEN796jTiQfZfG1KaT0PtFDJ/XFSqti a\n\nkey\nssh-ed25519 AAAAC3NzaC1lZDI1NTE5AAAAILM+rvN+ot98qgEN796jTiQfZfG1KaT0PtFDJ/XFSqti b # c";

const ENTRIES_SHOWN: &[u8] =
    b"ssh-ed25519 AAAAC3NzaC1lZDI1NTE5AAAAILM+rvN+ot98qgEN796jTiQfZfG1KaT0PtFDJ/XFSqti a\nrefused: format encoding error\nssh-ed25519 AAAAC3NzaC1lZDI1NTE5AAAAILM+rvN+ot98qgEN796jTiQfZfG1KaT0PtFDJ/XFSqti b\n";

const USAGE: &[u8] =
    b"usage: sshkey fingerprint | art <header> | normal | cert [principal] | keys | hosts\n";

const FINGERPRINT: [&str; 1] = ["fingerprint"];

/// At these words it shows the usage, and leaves the input.
fn shows_usage(alloc: Global, words: &[&str]) -> bool {
    let mut left = LINE;
    let mut output = Vec::new(alloc);
    let status = run(alloc, words, &mut left, &mut output);
    status == 2 && output.as_slice() == USAGE && left.len() == LINE.len()
}

#[test]
fn other_words_are_judged_before_the_input(rt: HostRuntime) {
    assert!(rt; shows_usage(rt.alloc(), &[]));
    assert!(rt; shows_usage(rt.alloc(), &["Fingerprint"]));
    assert!(rt; shows_usage(rt.alloc(), &["fingerprint", "x"]));
    assert!(rt; shows_usage(rt.alloc(), &["art"]));
    assert!(rt; shows_usage(rt.alloc(), &["art", "x", "y"]));
}

/// An input that fails before that byte is refused in these words.
fn fails_before(alloc: Global, before: usize, kind: ErrorKind, text: &[u8]) -> bool {
    let mut input = Failing {
        bytes: LINE,
        most: 7,
        before,
        kind,
        interrupted: false,
    };
    let mut output = Vec::new(alloc);
    run(alloc, &FINGERPRINT, &mut input, &mut output) == 1 && output.as_slice() == text
}

#[test]
fn an_input_that_fails_is_refused_at_each_byte(rt: HostRuntime) {
    let failed = b"refused: I/O error\n";
    let full = b"refused: out of memory\n";
    for before in 0..LINE.len() {
        assert!(rt;
            fails_before(rt.alloc(), before, ErrorKind::BrokenPipe, failed),
            "{before}"
        );
        assert!(rt;
            fails_before(rt.alloc(), before, ErrorKind::OutOfMemory, full),
            "{before}"
        );
    }
}

#[test]
fn short_and_interrupted_calls_change_nothing(rt: HostRuntime) {
    let mut input = Failing {
        bytes: LINE,
        most: 1,
        before: usize::MAX,
        kind: ErrorKind::Other,
        interrupted: false,
    };
    let mut output = with_room(rt.alloc(), SHOWN.len(), false);
    let status = run(rt.alloc(), &FINGERPRINT, &mut input, &mut output);
    assert!(rt; status == 0 && output.taken.as_slice() == SHOWN);
}

fn with_room(alloc: Global, room: usize, is_full: bool) -> Narrow {
    Narrow {
        taken: Vec::new(alloc),
        most: 3,
        room,
        is_full,
        interrupted: false,
    }
}

/// An output with room for less than the text holds its beginning, and the status is 1.
fn holds_a_beginning(
    alloc: Global,
    word: &str,
    input: &[u8],
    text: &[u8],
    room: usize,
    is_full: bool,
) -> bool {
    let mut left = input;
    let mut output = with_room(alloc, room, is_full);
    let status = run(alloc, &[word], &mut left, &mut output);
    let taken = output.taken.as_slice();
    status == 1 && taken.len() == room && text.starts_with(taken)
}

#[test]
fn an_output_that_fails_holds_a_beginning(rt: HostRuntime) {
    let alloc = rt.alloc();
    let rows = [
        ("fingerprint", LINE, SHOWN),
        ("other", LINE, USAGE),
        ("keys", ENTRIES, ENTRIES_SHOWN),
    ];
    for (word, input, text) in rows {
        for room in 0..text.len() {
            assert!(rt;
                holds_a_beginning(alloc, word, input, text, room, false),
                "{word} {room}"
            );
            assert!(rt;
                holds_a_beginning(alloc, word, input, text, room, true),
                "{word} {room}"
            );
        }
    }
}

/// `count` lines of authorized_keys.
fn lines(alloc: Global, count: u32) -> Result<Vec<u8>, AllocError> {
    let mut lines = Vec::new(alloc);
    for _ in 0..count {
        lines.extend_from_slice(LINE)?;
    }
    Ok(lines)
}

/// The bytes that are written of `count` lines, and how often `write` is called for them.
fn written(alloc: Global, count: u32) -> Result<Counted, AllocError> {
    let text = lines(alloc, count)?;
    let mut input = text.as_slice();
    let mut output = Counted { bytes: 0, calls: 0 };
    let _ = run(alloc, &["keys"], &mut input, &mut output);
    Ok(output)
}

/// Whether `bytes` bytes are written of `count` lines, by at most `most` calls of `write`.
fn writes_by(alloc: Global, count: u32, bytes: usize, most: usize) -> bool {
    match written(alloc, count) {
        Ok(output) => output.bytes == bytes && output.calls <= most,
        Err(_) => false,
    }
}

#[test]
fn entries_are_written_by_few_calls(rt: HostRuntime) {
    assert!(rt; writes_by(rt.alloc(), 5000, 490_000, 8));
}
