//! Which lines of authorized_keys may be for a key.

ghost use Rattle.std.specs.Prelude.{◌≡◌, ◌≤◌, ◌↔◌, false, IsTrue, length};
ghost use Rattle.sshkey_keys.specs.Keys.{key_of};
ghost use Rattle.user_keys.specs.Lines.{IsPassedOver};
ghost use Rattle.user_keys.specs.Spellings.{MaySpell, own_part};

use crate::marks::{Marks, own_part};
use sshkey_keys::KeyData;

/// How many bytes a part has at least by which a key is sought.
const LEAST_PART: usize = 17;

/// Returns whether sshd(8) may take a line of authorized_keys for one of the key, whatever it makes
/// of the line's options: the key may be spelled in it (`laws::marked_words`). So a program that has
/// sshd judge lines leaves out only those for which this is `false`: sshd takes the first that lets
/// the key in, and one that is left out may hand the login to a later line, which binds it less.
///
/// Where a key is spelled is sought by its point or its last number. It may be in any line if that
/// has fewer than 17 bytes; OpenSSH lets nobody in by such a key. Does not allocate.
pub fn line_may_name_key(line: &[u8], key: &KeyData) -> bool
    ensures spelled { 17 ≤ length (own_part (key_of key.now))
        → IsTrue result ↔ MaySpell (own_part (key_of key.now)) line.now }
    ensures passed { result ≡ false → IsPassedOver (key_of key.now) line.now }
{
    if own_part(key).len() < LEAST_PART {
        return true;
    }
    Marks::of(key).stand_in(line)
}
