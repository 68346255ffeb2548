//! Writing where no memory is to be had: were the bytes received in their normal form?

ghost use Rattle.std.specs.Prelude.{◌≡◌, ◌≤◌, ◌↔◌, IsTrue, IsOk, IfOk, IfErr, length};
ghost use Rattle.ssh_key.specs.types.encoding.Error.TheVariants.{Length};
ghost use Rattle.ssh_key.specs.model.Keys.{normal_key};
ghost use Rattle.ssh_key.specs.model.Parts.{BoxesFit, flat};
ghost use Rattle.ssh_key.specs.keys.Keys.{key_of};

use ssh_key::encoding::{Encode, Result, SliceWriter};
use ssh_key::public::KeyData;

/// Whether the blob is the normal form of the key, which is written into the room. What the room
/// holds afterwards is unspecified. Does not allocate.
///
/// Rejected exactly where the room is too small, or a part of the key is longer than 2^32 - 1
/// bytes, and always as `Length`.
pub fn is_normal_blob(key: &KeyData, blob: &[u8], room: &mut [u8]) -> Result<bool>
    ensures same { IfOk result
        (λ yes. IsTrue yes ↔ (blob.now ≡ flat (normal_key (key_of key.now)))) }
    ensures room { IsOk result ↔ (BoxesFit (normal_key (key_of key.now))
        × (length (flat (normal_key (key_of key.now))) ≤ length room.old)) }
    ensures refused { IfErr result (λ e. e ≡ Length) }
{
    let mut writer = SliceWriter::new(room);
    key.encode(&mut writer)?;
    Ok(blob == writer.written())
}
