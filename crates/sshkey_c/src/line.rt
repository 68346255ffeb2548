//! Lines of key files, of certificate files and of known_hosts.

ghost use Rattle.std.specs.Prelude.{◌≡◌, ◌≢◌, ◌<◌, ◌⊎◌, length, true};
ghost use Rattle.std.specs.Str.{IsUtf8};
ghost use Rattle.sshkey_matching.specs.FromLists.{is_like_address};
ghost use Rattle.sshkey_entries.specs.Fields.{filled_lines, without_blanks};
ghost use Rattle.sshkey_entries.specs.OtherKeys.{AreOtherKeyFields};
ghost use Rattle.sshkey_calls.specs.KeyLines.{HoldsContent, NeedsLine, ReadsContent, TellsLineFault};
ghost use Rattle.sshkey_entry_calls.specs.LaterKinds.{NamesLaterKind};
ghost use Rattle.sshkey_entry_calls.specs.Hosts.{TellsUnreadableLine};

use sshkey_calls::Line;
use sshkey_calls::line::read_text;
use sshkey_calls::number::{CHARACTER_ENCODING, DONE, LABEL, TEXT};
use sshkey_entries::{are_other_key_fields, skip_blanks};
use sshkey_entry_calls::host_fault_status;
use sshkey_entry_calls::later_kinds::begins_with_later_kind;
use sshkey_entry_calls::unreadable_line::find_line;
use sshkey_matching::asked_host;
use std::alloc::Global;
use std::str;

/// The key or the certificate of a line, and its comment, as `PublicKey::from_openssh` and
/// `Certificate::from_openssh` read them: the name of its algorithm, the bytes in padded Base64 and
/// the comment, with a space between, and white space at the end.
///
/// Returns 0 with blob and comment in the room, 2 where the room is too short for them, 1 if memory
/// ran out, and else from 10 to 29 the fault of a line of neither: 10 for what is not canonical
/// Base64, 13 for a word that is missing, 16 for another first word than the name. It is the fault
/// as the line of a certificate, or, where that is 12, as the line of a key. With 2 the
/// answer says how much room is needed, and the room is as it was. Memory is taken only where the
/// bytes of the second word need some, or for the line of a key or of a certificate.
///
/// A line end within the line is part of the comment.
#[unsafe(no_mangle)]
pub extern "C" fn raf_read_line(
    alloc: Global,
    line: &[u8],
    room: &mut [u8],
    answer: &mut Line,
) -> u32
    ensures reads { ReadsContent (HoldsContent line.now) result answer.old answer.new room.old
        room.new }
    ensures fault { IsUtf8 line.now → TellsLineFault line.now result }
    ensures text { (IsUtf8 line.now → ⊥) → result ≡ 11 }
    ensures memory { result ≡ 1 → NeedsLine line.now }
{
    match str::from_utf8(line) {
        Ok(text) => read_text(alloc, text, room, answer),
        Err(_) => CHARACTER_ENCODING,
    }
}

/// Whether the line of a file of keys has a key of a kind that is none here, as a later OpenSSH
/// writes it, after spaces and tabs and without options (`sshkey_entries::are_other_key_fields`).
///
/// Returns 0 if it has, 12 if not, also for the line of a key that is read here, and 4 for a line
/// that is not UTF-8. Does not allocate.
#[unsafe(no_mangle)]
pub extern "C" fn raf_is_later_key_line(line: &[u8]) -> u32
    ensures other { IsUtf8 line.now → AreOtherKeyFields (without_blanks line.now) → result ≡ 0 }
    ensures none { IsUtf8 line.now → (AreOtherKeyFields (without_blanks line.now) → ⊥)
        → result ≡ 12 }
    ensures text { (IsUtf8 line.now → ⊥) → result ≡ 4 }
{
    let Ok(text) = str::from_utf8(line) else {
        return TEXT;
    };
    if are_other_key_fields(skip_blanks(text)) {
        return DONE;
    }
    LABEL
}

/// Whether the bytes name, as a string, a kind of key, of certificate or of signature that OpenSSH
/// reads or read, and that is none here: `ssh-mldsa44-ed25519` of 10.4, the signatures of WebAuthn,
/// and XMSS up to 10.0. Asked of bytes that are no key, no certificate and no signature, it tells
/// why.
///
/// Returns 0 if they do, and 12 if not. Does not allocate.
#[unsafe(no_mangle)]
pub extern "C" fn raf_names_later_kind(bytes: &[u8]) -> u32
    ensures named { NamesLaterKind bytes.now → result ≡ 0 }
    ensures none { (NamesLaterKind bytes.now → ⊥) → result ≡ 12 }
{
    for place in 0..bytes.len() {
        if begins_with_later_kind(&bytes[place..]) {
            return DONE;
        }
    }
    LABEL
}

/// The number of the first line, from 1, by which a text of known_hosts cannot be read for a host
/// at a port (`sshkey_known_hosts::unreadable_line`), under the name that is asked
/// (`sshkey_matching::asked_host`).
///
/// Returns 0 if there is one, 3 if there is none, 4 where the host's name is not UTF-8,
/// `host_fault_status` where nothing can be asked about the host, and 1 if memory ran out, which a
/// text that is empty or has comments alone does not take, nor a host that is like no address. With
/// any answer but 0 the number stays as it was.
#[unsafe(no_mangle)]
pub extern "C" fn raf_unreadable_host_line(
    alloc: Global,
    known_hosts: &[u8],
    host: &[u8],
    port: u16,
    number: &mut usize,
) -> u32
    ensures line { IsUtf8 host.now
        → TellsUnreadableLine known_hosts.now host.now port result number.new }
    ensures text { (IsUtf8 host.now → ⊥) → result ≡ 4 }
    ensures kept { result ≢ 0 → number.new ≡ number.old }
    ensures memory { result ≡ 1 → (0 < length (filled_lines known_hosts.now))
        ⊎ (is_like_address host.now ≡ true) }
{
    let Ok(host) = str::from_utf8(host) else {
        return TEXT;
    };
    match asked_host(alloc, host, port) {
        Ok(asked) => find_line(alloc, known_hosts, asked.as_str(), port, number),
        Err(fault) => host_fault_status(fault),
    }
}
