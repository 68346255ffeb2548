//! Which line of a text of known_hosts cannot be read.

ghost use Rattle.std.specs.Prelude.{◌≡◌, ◌≢◌, ◌<◌, ◌⊎◌, None, Some, length};
ghost use Rattle.sshkey_entries.specs.Fields.{filled_lines};
ghost use Rattle.sshkey_entry_calls.specs.Hosts.{TellsLine};

use sshkey_calls::number::{DONE, END, MEMORY};
use sshkey_known_hosts::{HmacSha1, unreadable_line};
use std::alloc::Global;

/// Tells the number of the first line by which the text cannot be read for that name.
///
/// Returns 0 if there is one, 3 if there is none, and 1 if memory ran out.
pub fn find_line(alloc: Global, text: &[u8], name: &str, port: u16, number: &mut usize) -> u32
    ensures line { TellsLine text.now name.now port result number.new }
    ensures kept { result ≢ 0 → number.new ≡ number.old }
    ensures memory { result ≡ 1 → 0 < length (filled_lines text.now) }
{
    let Ok(found) = unreadable_line(alloc, text, name, port, &HmacSha1) else {
        return MEMORY;
    };
    tell_line(found, number)
}

/// Tells the number of a line, if there is one.
fn tell_line(found: Option<usize>, number: &mut usize) -> u32
    ensures found { result ≡ 0 → found ≡ Some number.new }
    ensures none { result ≡ 3 → found ≡ None }
    ensures others { (result ≡ 0) ⊎ (result ≡ 3) }
    ensures kept { result ≢ 0 → number.new ≡ number.old }
{
    match found {
        Some(line) => {
            *number = line;
            DONE
        }
        None => END,
    }
}
