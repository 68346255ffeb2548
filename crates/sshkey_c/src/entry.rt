//! Lines of authorized_keys and known_hosts, and the options of an entry.

ghost use Rattle.std.specs.Prelude.{◌≡◌, ◌≢◌};
ghost use Rattle.std.specs.Str.{IsUtf8};
ghost use Rattle.sshkey_authorized_keys.specs.OpenSshEntries as keys;
ghost use Rattle.sshkey_entries.specs.OpenSshLines.{IsAuthorizedLine, IsHostLine};
ghost use Rattle.sshkey_known_hosts.specs.HostEntries as hosts;
ghost use Rattle.sshkey_entry_calls.specs.Entries.{FindsEntry, NeedsAuthorizedEntry, TellsFault, of_authorized_key, of_known_host, FindsLine};
ghost use Rattle.sshkey_entry_calls.specs.Options.{FindsKeyOption};

use sshkey_calls::number::{DONE, END, TEXT};
use sshkey_calls::part::Part;
use sshkey_entries::bytes::{is_filled, skip_blanks, split_line};
use sshkey_entry_calls::entries::{authorized_entry_of, known_host_of};
use sshkey_entry_calls::lines::rest_from;
use sshkey_entry_calls::options::{option_end, skip_commas, tell_option};
use sshkey_entry_calls::{EntryParts, OptionParts};
use std::alloc::Global;
use std::str;

/// The first line from that place on that is neither empty nor a comment, without the spaces and
/// tabs at its front and without its end. The next one is found from the end of that part on.
///
/// Returns 0 if there is one, and else 3. Nothing is asked of the bytes. Does not allocate; takes
/// time for the bytes that it passes.
#[unsafe(no_mangle)]
pub extern "C" fn raf_next_line(text: &[u8], place: usize, answer: &mut Part) -> u32
    ensures { FindsLine text.now place result answer.old answer.new }
{
    let mut left = rest_from(text, place);
    'lines: while !left.is_empty() {
        let (line, after) = split_line(left);
        let filled = skip_blanks(line);
        if is_filled(filled) {
            *answer = Part {
                start: text.len() - left.len() + (line.len() - filled.len()),
                length: filled.len(),
            };
            return DONE;
        }
        left = after;
    }
    END
}

/// The entry of a line of authorized_keys as sshd(8) reads it ("AUTHORIZED_KEYS FILE FORMAT"): its
/// options, its key and its comment.
///
/// Returns 0 with the entry in the room, 2 where the room is too short for it, 1 if memory ran out,
/// 4 for a line that is not UTF-8, and from 10 to 29 a fault of a line that is no entry. With 2 the
/// answer says how much room is needed, and the room is as it was; with every other number but 0
/// answer and room are. Memory is taken only where a field of the line needs some, or for an entry.
#[unsafe(no_mangle)]
pub extern "C" fn raf_authorized_entry(
    alloc: Global,
    line: &[u8],
    room: &mut [u8],
    answer: &mut EntryParts,
) -> u32
    ensures entry { IsUtf8 line.now → FindsEntry (IsAuthorizedLine line.now) of_authorized_key
        result answer.old answer.new room.old room.new }
    ensures fault { IsUtf8 line.now → TellsFault keys.HasLineFault line.now result }
    ensures text { (IsUtf8 line.now → ⊥) → result ≡ 4 }
    ensures stays { result ≢ 0 → result ≢ 2
        → (answer.new ≡ answer.old) × (room.new ≡ room.old) }
    ensures memory { result ≡ 1 → NeedsAuthorizedEntry line.now }
{
    match str::from_utf8(line) {
        Ok(text) => authorized_entry_of(alloc, text, room, answer),
        Err(_) => TEXT,
    }
}

/// The option of an entry of authorized_keys that stands at that place, after commas (sshd(8),
/// "AUTHORIZED_KEYS FILE FORMAT"). The next one is found from `next` on; begin at 0.
///
/// Returns 0 with the option in the room, 2 where the room is too short for it, 3 exactly where
/// nothing but commas is left, 1 if memory ran out, 15 where no option stands there, and 4 where
/// the bytes up to the next comma outside quotes are not UTF-8. With 2 the answer says how much
/// room is needed, and the room is as it was; with every other number but 0 answer and room are.
/// What follows the option is not read: where a fault is in it, a later call refuses.
#[unsafe(no_mangle)]
pub extern "C" fn raf_next_line_option(
    alloc: Global,
    options: &[u8],
    place: usize,
    room: &mut [u8],
    answer: &mut OptionParts,
) -> u32
    ensures { FindsKeyOption options.now place result answer.old answer.new room.old room.new }
{
    let left = skip_commas(rest_from(options, place));
    if left.is_empty() {
        return END;
    }
    let end = option_end(left);
    let next = options.len() - (left.len() - end);
    match str::from_utf8(&left[..end]) {
        Ok(text) => tell_option(alloc, text, next, room, answer),
        Err(_) => TEXT,
    }
}

/// The entry of a line of known_hosts as OpenSSH reads it (sshd(8), "SSH_KNOWN_HOSTS FILE FORMAT"):
/// its marker, its hosts, its key and its comment. Patterns of hosts are joined by commas.
///
/// Returns what `raf_authorized_entry` does. Memory is taken only where the line has hosts.
#[unsafe(no_mangle)]
pub extern "C" fn raf_known_host(
    alloc: Global,
    line: &[u8],
    room: &mut [u8],
    answer: &mut EntryParts,
) -> u32
    ensures entry { IsUtf8 line.now → FindsEntry (IsHostLine line.now) of_known_host
        result answer.old answer.new room.old room.new }
    ensures fault { IsUtf8 line.now → TellsFault hosts.HasLineFault line.now result }
    ensures text { (IsUtf8 line.now → ⊥) → result ≡ 4 }
    ensures stays { result ≢ 0 → result ≢ 2
        → (answer.new ≡ answer.old) × (room.new ≡ room.old) }
    ensures memory { result ≡ 1 → hosts.NeedsHostLine line.now }
{
    match str::from_utf8(line) {
        Ok(text) => known_host_of(alloc, text, room, answer),
        Err(_) => TEXT,
    }
}
