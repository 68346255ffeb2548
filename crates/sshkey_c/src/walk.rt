//! Strings that stand in bytes, one after the other.

ghost use Rattle.sshkey_calls.specs.Certificates.{FindsString};

use sshkey_calls::Part;
use sshkey_calls::number::{DONE, END, LENGTH};
use sshkey_terms::split_string;

/// The content of the string that begins at that place: what follows a length of four bytes, as
/// many bytes as it says (RFC 4251, section 5). The next one begins after it.
///
/// Returns 0, 3 exactly where the place is the end of the bytes, and 13 where the length or its
/// bytes are not all there, or the place is after the end. Does not allocate.
#[unsafe(no_mangle)]
pub extern "C" fn raf_next_string(bytes: &[u8], place: usize, answer: &mut Part) -> u32
    ensures { FindsString bytes.now place result answer.old answer.new }
{
    if place == bytes.len() {
        return END;
    }
    if bytes.len() < place {
        return LENGTH;
    }
    match split_string(&bytes[place..]) {
        Ok((string, _)) => {
            *answer = Part {
                start: place + 4,
                length: string.len(),
            };
            DONE
        }
        Err(_) => LENGTH,
    }
}
