//! Key lines, read and written.

use super::support::{is_debugged, is_text, is_wanted, shows};
use ssh_key::encoding::{Reader, SliceWriter};
use ssh_key::public::KeyData;
use ssh_key::{Base64Reader, Error, HashAlg, PublicKey, encoding, read_line, write_line};
use std::alloc::{AllocError, Global};

const LINE: &str =
    "ssh-ed25519 AAAAC3NzaC1lZDI1NTE5AAAAILM+rvN+ot98qgEN796jTiQfZfG1KaT0PtFDJ/XFSqti user@example.com";

const WORD: &str = "AAAAC3NzaC1lZDI1NTE5AAAAILM+rvN+ot98qgEN796jTiQfZfG1KaT0PtFDJ/XFSqti";

/// Lines, and what is written of the key and the comment in each.
const WRITTEN: [(&str, &str); 5] = [
    (LINE, LINE),
    (
        "ssh-rsa AAAADHJzYS1zaGEyLTI1NgAAAAMBAAEAAAACAP8=",
        "ssh-rsa AAAAB3NzaC1yc2EAAAADAQABAAAAAgD/",
    ),
    (
        "ssh-ed25519 AAAAC3NzaC1lZDI1NTE5AAAAILM+rvN+ot98qgEN796jTiQfZfG1KaT0PtFDJ/XFSqti \t\r\n",
        "ssh-ed25519 AAAAC3NzaC1lZDI1NTE5AAAAILM+rvN+ot98qgEN796jTiQfZfG1KaT0PtFDJ/XFSqti",
    ),
    (
        "ssh-ed25519 AAAAC3NzaC1lZDI1NTE5AAAAILM+rvN+ot98qgEN796jTiQfZfG1KaT0PtFDJ/XFSqti  two  words ",
        "ssh-ed25519 AAAAC3NzaC1lZDI1NTE5AAAAILM+rvN+ot98qgEN796jTiQfZfG1KaT0PtFDJ/XFSqti  two  words",
    ),
    (
        "ssh-rsa AAAAB3NzaC1yc2EAAAADAQABAAAAAQE= x",
        "ssh-rsa AAAAB3NzaC1yc2EAAAADAQABAAAAAQE= x",
    ),
];

/// The key and its comment are written so to a vector.
fn is_in_vector(alloc: Global, key: &PublicKey, wanted: &str) -> bool {
    let mut bytes = Vec::new(alloc);
    let answer = write_line(key.key_data(), key.comment(), &mut bytes);
    is_wanted(answer, Ok(())) && bytes.as_slice() == wanted.as_bytes()
}

/// Whether that is written of the line: as a text, to a vector, and into a slice with just room for
/// it, but not with less.
fn is_written(alloc: Global, line: &str, wanted: &str) -> bool {
    match PublicKey::from_openssh(alloc, line) {
        Ok(key) => {
            is_text(key.to_openssh(alloc), wanted)
                && is_in_vector(alloc, &key, wanted)
                && is_written_into(&key, wanted.len(), wanted)
                && !is_written_into(&key, wanted.len().saturating_sub(1), wanted)
        }
        Err(_) => false,
    }
}

/// Whether the line is written into so much room, and is that text.
fn is_written_into(key: &PublicKey, room: usize, text: &str) -> bool {
    let mut out = [0u8; 128];
    if room > out.len() {
        return false;
    }
    match key.encode_openssh(&mut out[..room]) {
        Ok(line) => line == text,
        Err(error) => error != Error::Encoding(encoding::Error::Length),
    }
}

#[test]
fn lines_are_written_from_what_was_read(rt: HostRuntime) {
    for (line, wanted) in WRITTEN {
        assert!(rt; is_written(rt.alloc(), line, wanted), "{line}");
    }
}

/// Ed25519's line with more after its word.
fn with_end(alloc: Global, end: &str) -> Result<String, AllocError> {
    format!(in alloc; "ssh-ed25519 {WORD}{end}")
}

fn is_refused(alloc: Global, end: &str) -> bool {
    match with_end(alloc, end) {
        Ok(line) => PublicKey::from_openssh(alloc, line.as_str()).is_err(),
        Err(_) => false,
    }
}

#[test]
fn words_with_more_after_them_are_refused(rt: HostRuntime) {
    for end in ["AAAA", "A=AA", "@AAA", "====", "AA==", "="] {
        assert!(rt; is_refused(rt.alloc(), end), "{end}");
    }
}

fn is_length<T: Drop>(answer: Result<T, Error>) -> bool {
    matches!(answer, Err(Error::Encoding(encoding::Error::Length)))
}

/// Of the 97 bytes of the line there is room for 96, so nothing of the slice changes.
fn leaves_the_slice(key: &PublicKey) -> bool {
    let mut out = [b'*'; 96];
    let no_text = is_length(key.encode_openssh(&mut out));
    let no_line = is_length(key.write_openssh(&mut out));
    no_text && no_line && out == [b'*'; 96]
}

/// The line is the front of a slice that is longer.
fn begins_the_slice(key: &PublicKey) -> bool {
    let mut out = [b'*'; 128];
    key.write_openssh(&mut out) == Ok(97) && &out[..97] == LINE.as_bytes()
}

fn fills_slices(alloc: Global) -> bool {
    match PublicKey::from_openssh(alloc, LINE) {
        Ok(key) => leaves_the_slice(&key) && begins_the_slice(&key),
        Err(_) => false,
    }
}

#[test]
fn a_slice_that_is_too_short_is_left_as_it_was(rt: HostRuntime) {
    assert!(rt; fills_slices(rt.alloc()));
}

/// Whether the key with that end of its line is one line.
fn is_one_line(alloc: Global, end: &str) -> Option<bool> {
    let line = with_end(alloc, end).ok()?;
    let key = PublicKey::from_openssh(alloc, line.as_str()).ok()?;
    Some(key.is_one_line())
}

/// A name of three bytes before its at sign, the second a line feed, and no body.
const NAME_OF_TWO_LINES: [u8; 13] = *b"\x00\x00\x00\x05a\nb@c\x00\x00\x00\x00";

fn is_named_in_one_line(alloc: Global) -> Option<bool> {
    let key = PublicKey::from_bytes(alloc, &NAME_OF_TWO_LINES).ok()?;
    Some(key.is_one_line())
}

#[test]
fn a_key_with_a_line_end_is_more_than_one_line(rt: HostRuntime) {
    for end in ["", " one line", " one line \r\n"] {
        assert!(rt; is_one_line(rt.alloc(), end) == Some(true), "{end}");
    }
    for end in [" two\nlines", " two\rlines", " \n.", " \r\n."] {
        assert!(rt; is_one_line(rt.alloc(), end) == Some(false), "{end}");
    }
    assert!(rt; is_wanted(is_named_in_one_line(rt.alloc()), Some(false)));
}

/// A word of eleven bytes, read in pieces of one, four and six.
fn in_pieces() -> encoding::Result<bool> {
    let mut reader = Base64Reader::new("AQIDBAUGBwgJCgs=")?;
    let all = reader.remaining_len();
    let (mut one, mut four, mut six) = ([0u8; 1], [0u8; 4], [0u8; 6]);
    reader.read(&mut one)?;
    reader.read(&mut four)?;
    let some = reader.remaining_len();
    reader.read(&mut six)?;
    Ok(
        (all, some) == (11, 6)
            && (one, four, six) == ([1], [2, 3, 4, 5], [6, 7, 8, 9, 10, 11])
            && reader.is_finished()
            && is_wanted(reader.read(&mut one), Err(encoding::Error::Length)),
    )
}

#[test]
fn a_word_is_read_in_pieces(rt: HostRuntime) {
    assert!(rt; is_wanted(in_pieces(), Ok(true)));
}

/// What a word of three bytes shows before one of them is read, and after it: how many are left.
fn shows_lengths(alloc: Global) -> encoding::Result<bool> {
    let mut reader = Base64Reader::new("KioK")?;
    let three = is_debugged(alloc, &reader, "Base64Reader { remaining: 3, .. }");
    let mut first = [0u8; 1];
    reader.read(&mut first)?;
    Ok(three && is_debugged(alloc, &reader, "Base64Reader { remaining: 2, .. }"))
}

#[test]
fn a_word_shows_no_bytes(rt: HostRuntime) {
    assert!(rt; is_wanted(shows_lengths(rt.alloc()), Ok(true)));
}

/// The padding stands in the second of three groups.
fn fault_of_group() -> encoding::Result<bool> {
    let mut reader = Base64Reader::new("AQIDBA==AQID")?;
    let all = reader.remaining_len();
    let (mut three, mut one) = ([0u8; 3], [0u8; 1]);
    reader.read(&mut three)?;
    let some = reader.remaining_len();
    Ok((all, some) == (9, 6) && reader.read(&mut one) == Err(encoding::Error::Base64))
}

/// How many bytes a word of padding alone announces.
fn len_of_padding() -> encoding::Result<usize> {
    Ok(Base64Reader::new("====")?.remaining_len())
}

#[test]
fn a_fault_is_met_in_its_group(rt: HostRuntime) {
    assert!(rt; is_wanted(fault_of_group(), Ok(true)));
    assert!(rt; is_wanted(len_of_padding(), Ok(1)));
    assert!(rt; Base64Reader::new("AAA").is_err());
}

/// One byte less than the line has is filled with its beginning.
fn is_begun(key: &KeyData, comment: &str) -> bool {
    let mut out = [0u8; 96];
    let mut writer = SliceWriter::new(&mut out);
    let answer = write_line(key, comment, &mut writer);
    is_wanted(answer, Err(encoding::Error::Length)) && LINE.as_bytes().starts_with(writer.written())
}

fn does_not_fit(alloc: Global) -> bool {
    match read_line::<KeyData>(alloc, LINE) {
        Ok((key, comment)) => is_begun(&key, comment.as_str()),
        Err(_) => false,
    }
}

#[test]
fn a_line_that_does_not_fit_is_begun(rt: HostRuntime) {
    assert!(rt; does_not_fit(rt.alloc()));
}

/// A key whose blob has so many bytes after its name that it takes more than one window.
fn long_line(alloc: Global) -> Option<String> {
    let group = String::from_str(alloc, "CAgI").ok()?;
    let groups = group.repeat(alloc, 1365).ok()?;
    let line = format!(in alloc; "name@example.com AAAAEG5hbWVAZXhhbXBsZS5jb20AABAA{groups}CA== c");
    line.ok()
}

/// The line is written of the key that is read from it.
fn is_written_again(alloc: Global, line: &str) -> bool {
    match PublicKey::from_openssh(alloc, line) {
        Ok(key) => is_in_vector(alloc, &key, line),
        Err(_) => false,
    }
}

fn is_long(alloc: Global) -> bool {
    match long_line(alloc) {
        Some(line) => is_written_again(alloc, line.as_str()),
        None => false,
    }
}

#[test]
fn a_long_key_is_written_window_by_window(rt: HostRuntime) {
    assert!(rt; is_long(rt.alloc()));
}

fn has_algorithm(alloc: Global, key: &PublicKey) -> bool {
    match key.algorithm(alloc) {
        Ok(algorithm) => algorithm.as_str() == "ssh-ed25519",
        Err(_) => false,
    }
}

fn has_fingerprint(alloc: Global, key: &PublicKey) -> bool {
    match key.fingerprint(alloc, HashAlg::Sha256) {
        Ok(it) => shows(
            alloc,
            &it,
            "SHA256:UCUiLr7Pjs9wFFJMDByLgc3NrtdU344OgUM45wZPcIQ",
        ),
        Err(_) => false,
    }
}

/// Its copy is equal, and comes after it under another comment.
fn is_copied(alloc: Global, key: &PublicKey) -> bool {
    match key.try_clone(alloc) {
        Ok(copy) => copy == *key && is_less_with_comment(alloc, key, copy),
        Err(_) => false,
    }
}

fn is_less_with_comment(alloc: Global, key: &PublicKey, copy: PublicKey) -> bool {
    let mut other = copy;
    match String::from_str(alloc, "z") {
        Ok(comment) => {
            other.set_comment(comment);
            *key < other && other.comment() == "z"
        }
        Err(_) => false,
    }
}

/// Without its comment it is read from its bytes.
fn is_bare(alloc: Global, key: &PublicKey) -> bool {
    match key.to_bytes(alloc) {
        Ok(bytes) => is_read_bare(alloc, key, &bytes),
        Err(_) => false,
    }
}

fn is_read_bare(alloc: Global, key: &PublicKey, bytes: &[u8]) -> bool {
    match PublicKey::from_bytes(alloc, bytes) {
        Ok(read) => {
            read.comment().is_empty()
                && read.key_data() == key.key_data()
                && is_of_its_data(alloc, read)
        }
        Err(_) => false,
    }
}

/// A key with no comment is that of its data.
fn is_of_its_data(alloc: Global, read: PublicKey) -> bool {
    match read.try_clone(alloc) {
        Ok(copy) => PublicKey::from_key_data(alloc, KeyData::from(copy)) == read,
        Err(_) => false,
    }
}

/// The key of the line has this comment, algorithm and fingerprint, a copy, and bytes.
fn has_parts(alloc: Global) -> bool {
    match PublicKey::from_openssh(alloc, LINE) {
        Ok(key) => {
            key.comment() == "user@example.com"
                && has_algorithm(alloc, &key)
                && has_fingerprint(alloc, &key)
                && is_copied(alloc, &key)
                && is_bare(alloc, &key)
        }
        Err(_) => false,
    }
}

#[test]
fn keys_have_their_parts(rt: HostRuntime) {
    assert!(rt; has_parts(rt.alloc()));
}
