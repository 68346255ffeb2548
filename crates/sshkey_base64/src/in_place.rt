//! Writing bytes in Base64 where they stand.

ghost use Rattle.std.specs.Prelude.{◌≡◌, ◌≤◌, ◌+◌, ◌-◌, ◌*◌, ◌/◌, length, drop};
ghost use Rattle.base64.specs.Engines.{standard};
ghost use Rattle.base64.specs.GeneralPurpose.{encode_of};

use crate::word::PIECE;
use base64::engine::general_purpose::STANDARD;

/// Encodes the last `count` bytes of a buffer in padded Base64 (RFC 4648, section 4), into the same
/// buffer, which the characters fill from its first byte to its last.
///
/// The buffer has room for just these characters: four for each three of the bytes, and four for
/// the one or two that are left. It goes from the front on, piece by piece, and no byte is
/// overwritten before it is encoded. Does not allocate.
pub fn spread(word: &mut [u8], count: usize)
    requires room { length word.old ≡ 4 * ((count + 2) / 3) }
    requires fits { count ≤ length word.old }
    ensures { word.new ≡ encode_of standard (drop (length word.old - count) word.old) }
{
    let start = word.len() - count;
    let mut done = 0;
    'pieces: while done < count {
        let len = (count - done).min(PIECE);
        let mut piece = [0u8; PIECE];
        piece[..len].copy_from_slice(&word[start + done..start + done + len]);
        let Ok(_) = STANDARD.encode_slice(&piece[..len], &mut word[done / 3 * 4..]) else {
            unreachable!();
        };
        done += len;
    }
}
