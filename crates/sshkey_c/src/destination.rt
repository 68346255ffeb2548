//! A host and its port.

ghost use Rattle.std.specs.Prelude.{◌≡◌, ◌≢◌};
ghost use Rattle.std.specs.Str.{IsUtf8};
ghost use Rattle.sshkey_entry_calls.specs.Destinations.{BeginsHost, TellsDestination};

use sshkey_calls::Part;
use sshkey_calls::number::{DONE, FORMAT, TEXT};
use sshkey_entry_calls::{HostAndPort, read_destination};
use std::str;

/// Takes a host and its port apart (`read_destination`). Does not allocate.
///
/// Returns 0 with them, 4 where the text is not UTF-8, and 15 where a bracket or a colon is
/// followed by anything else. With any number but 0 the answer stays as it was.
#[unsafe(no_mangle)]
pub extern "C" fn raf_host_and_port(text: &[u8], answer: &mut HostAndPort) -> u32
    ensures parts { IsUtf8 text.now → TellsDestination text.now result answer.new }
    ensures text { (IsUtf8 text.now → ⊥) → result ≡ 4 }
    ensures stays { result ≢ 0 → answer.new ≡ answer.old }
{
    let Ok(text) = str::from_utf8(text) else {
        return TEXT;
    };
    let Some((host, port)) = read_destination(text) else {
        return FORMAT;
    };
    *answer = HostAndPort {
        host: Part {
            start: start_of(text),
            length: host.len(),
        },
        port: port.unwrap_or(0),
    };
    DONE
}

/// Where the host begins: after the bracket, if there is one.
fn start_of(text: &str) -> usize
    ensures { BeginsHost text.now result }
{
    if text.starts_with('[') {
        return 1;
    }
    0
}
