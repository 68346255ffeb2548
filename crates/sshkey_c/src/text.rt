//! Texts that people see.

ghost use Rattle.std.specs.Prelude.{◌≡◌};
ghost use Rattle.std.specs.Str.{IsUtf8};
ghost use Rattle.sshkey_entry_calls.specs.Texts.{Draws, TellsArmour};

use sshkey_calls::Sha256Digest;
use sshkey_calls::number::{TEXT, error_status};
use sshkey_calls::part::answer_with;
use sshkey_entry_calls::picture::draw;
use std::alloc::Global;
use std::str;

/// The bytes of an SSH signature in its armour, at the front of the room, and their length
/// (`sshkey_base64::read_armour`). A room as long as the text is enough.
///
/// Returns 0, 2 where the room is too short for them, 1 if memory ran out, 15 where the first or
/// the last line is missing, and 10 where no Base64 stands between. With 2 the room is as it was.
#[unsafe(no_mangle)]
pub extern "C" fn raf_read_armour(
    alloc: Global,
    text: &[u8],
    room: &mut [u8],
    length: &mut usize,
) -> u32
    ensures { TellsArmour text.now result length.old length.new room.old room.new }
{
    match sshkey_base64::read_armour(alloc, text) {
        Ok(bytes) => {
            let read = bytes.len();
            answer_with(Ok((bytes, read)), room, length)
        }
        Err(error) => error_status(error),
    }
}

/// Writes the random art of a key under a header to the front of the room, as `ssh-keygen -lv`
/// shows it, and its length: eleven lines, without a line end after the last. `digest` is the key's
/// SHA-256 fingerprint. A room of 219 bytes and the header is enough.
///
/// Returns 0, 2 where the room is too short, 1 if memory ran out, and 4 where the header is not
/// UTF-8. With 2 the room is as it was.
#[unsafe(no_mangle)]
pub extern "C" fn raf_random_art(
    alloc: Global,
    digest: &Sha256Digest,
    header: &[u8],
    room: &mut [u8],
    length: &mut usize,
) -> u32
    ensures art { IsUtf8 header.now → Draws header.now digest.now.bytes result length.old length.new
        room.old room.new }
    ensures text { (IsUtf8 header.now → ⊥) → result ≡ 4 }
    ensures stays { result ≡ 4 → (length.new ≡ length.old) × (room.new ≡ room.old) }
{
    let Ok(header) = str::from_utf8(header) else {
        return TEXT;
    };
    answer_with(draw(alloc, digest, header), room, length)
}
