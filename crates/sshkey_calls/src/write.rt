//! Bytes that are written to the caller's room.

ghost use Rattle.std.specs.Prelude.{◌≡◌, ◌≢◌};
ghost use Rattle.sshkey_calls.specs.Writing.{WritesContent};

use crate::number::{DONE, SHORT_BUFFER};
use crate::part::write_to;

/// Writes the content to the front of the room, and how many bytes it has.
///
/// Returns 0, or 2 where the room is shorter and stays as it was.
pub fn write_bytes(content: &[u8], room: &mut [u8], length: &mut usize) -> u32
    ensures written { WritesContent (λ s. s ≡ content.now) result length.old length.new room.old
        room.new }
    ensures memory { result ≢ 1 }
{
    *length = content.len();
    if write_to(room, content) {
        DONE
    } else {
        SHORT_BUFFER
    }
}
