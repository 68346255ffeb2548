//! Writing words in Base64, without memory for them.

ghost use Rattle.std.specs.Prelude.{◌≡◌, length};
ghost use Rattle.base64.specs.Engines.{standard};
ghost use Rattle.base64.specs.GeneralPurpose.{encode_of};
ghost use Rattle.sshkey_model.specs.Parts.{BoxesFit, bytes, flat};
ghost use Rattle.sshkey_base.specs.Sink.{Encodes};

use crate::window::Window;
use base64::engine::general_purpose::STANDARD;
use sshkey_base::encoding::Result;
use sshkey_base::{Encode, Writer};

/// The bytes that are encoded at once, in whole groups.
pub(crate) const PIECE: usize = 48;

/// Writes bytes in padded Base64, piece by piece. Allocates only where the writer does.
///
/// Any error is the writer's own; then it holds what it held before, and a prefix of the word.
pub fn write_base64<W: Writer>(blob: &[u8], writer: &mut W) -> Result<()>
    ensures { Encodes W.fault (bytes (encode_of standard blob.now))
        (W.sink writer.old) result (W.sink writer.new) }
{
    let mut done = 0;
    'pieces: while done < blob.len() {
        let len = (blob.len() - done).min(PIECE);
        let mut word = [0u8; PIECE / 3 * 4];
        let Ok(size) = STANDARD.encode_slice(&blob[done..done + len], &mut word) else {
            unreachable!();
        };
        writer.write(&word[..size])?;
        done += len;
    }
    Ok(())
}

/// Writes a value's normal form, of `len` bytes, in padded Base64. Allocates only where the writer
/// does.
///
/// The value is encoded once for each 3,072 of its bytes, so for n times the bytes it takes n * n
/// times as long. Any error is the writer's own; then it holds what it held before, and a prefix of
/// the word.
pub fn write_word<T: Encode, W: Writer>(value: &T, len: usize, writer: &mut W) -> Result<()>
    requires boxes { BoxesFit (T.normal value.now) }
    requires counted { len ≡ length (flat (T.normal value.now)) }
    ensures { Encodes W.fault (bytes (encode_of standard (flat (T.normal value.now))))
        (W.sink writer.old) result (W.sink writer.new) }
{
    let mut done = 0;
    'windows: while done < len {
        let mut window = Window::new(done);
        let Ok(()) = value.encode(&mut window) else {
            unreachable!();
        };
        let bytes = window.bytes();
        write_base64(bytes, writer)?;
        done += bytes.len();
    }
    Ok(())
}
