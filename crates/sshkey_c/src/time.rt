//! Which seconds a time means.

ghost use Rattle.std.specs.Prelude.{◌≡◌, ◌≢◌};
ghost use Rattle.std.specs.Str.{IsUtf8};
ghost use Rattle.sshkey_entry_calls.specs.Times.{TellsTime};

use sshkey_calls::number::{DONE, FORMAT, TEXT};
use sshkey_entry_calls::TimeSpan;
use std::str;

/// The seconds that a time may mean which is written as for ssh-keygen(1)
/// (`sshkey_matching::read_time`). Does not allocate.
///
/// Returns 0 with them, 4 where the text is not UTF-8, and 15 where it is no such time. With any
/// number but 0 the answer stays as it was.
#[unsafe(no_mangle)]
pub extern "C" fn raf_read_time(text: &[u8], answer: &mut TimeSpan) -> u32
    ensures time { IsUtf8 text.now → TellsTime text.now result answer.new }
    ensures text { (IsUtf8 text.now → ⊥) → result ≡ 4 }
    ensures stays { result ≢ 0 → answer.new ≡ answer.old }
{
    let Ok(text) = str::from_utf8(text) else {
        return TEXT;
    };
    let Some(span) = sshkey_matching::read_time(text) else {
        return FORMAT;
    };
    *answer = TimeSpan {
        first: span.first,
        last: span.last,
    };
    DONE
}
