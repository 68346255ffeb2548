//! Which line of a text of known_hosts cannot be read.

ghost use Rattle.std.specs.Prelude.{◌≡◌, ◌<◌, ◌↔◌, IfErr, IfOk, IsTrue, length};
ghost use Rattle.std.specs.Str.Lines.{lines};
ghost use Rattle.sshkey_base.specs.declared.error.Error.TheVariants as wide;
ghost use Rattle.sshkey_entries.specs.Fields.{filled_lines};
ghost use Rattle.sshkey_entries.specs.HostVerdicts.{known_name};
ghost use Rattle.sshkey_known_hosts.specs.Verdicts.{HidesEntryIn, IsNumberOfFirst};

use crate::host_hasher::HostHasher;
use crate::host_line::read_host_line;
use crate::host_name::known_name;
use crate::verdict::has_lines;
use sshkey_base::Result;
use sshkey_entries::bytes::{is_filled, skip_blanks, split_line};
use std::alloc::Global;

/// Whether the line is neither empty nor a comment, and no entry, and could be one for the name.
fn hides_entry<H: HostHasher>(alloc: Global, line: &[u8], name: &str, hmac: &H) -> Result<bool>
    ensures answer { IfOk result
        (λ yes. IsTrue yes ↔ HidesEntryIn (H.hmac hmac.now) name.now line.now) }
    ensures memory { IfErr result (λ e. e ≡ wide.Memory) }
{
    let text = skip_blanks(line);
    if !is_filled(text) {
        return Ok(false);
    }
    Ok(read_host_line(alloc, text, name, hmac)?.is_unreadable())
}

/// The number of the first line, from 1, that is no entry and could be one for the host: the line
/// by which `key_verdict` says `Unreadable` of each key that no other line revokes. `None` if there
/// is none, and then it never says so. Empty lines and comments are counted.
///
/// Fails only when out of memory, and never of a text that is empty or has comments alone.
pub fn unreadable_line<H: HostHasher>(
    alloc: Global,
    text: &[u8],
    host: &str,
    port: u16,
    hmac: &H,
) -> Result<Option<usize>>
    ensures answer { IfOk result (IsNumberOfFirst
        (HidesEntryIn (H.hmac hmac.now) (known_name host.now port)) (lines text.now)) }
    ensures memory { IfErr result (λ e. e ≡ wide.Memory) }
    ensures asks { IfErr result (λ _. 0 < length (filled_lines text.now)) }
{
    if !has_lines(text) {
        return Ok(None);
    }
    let name = known_name(alloc, host, port)?;
    let mut number = 0;
    let mut left = text;
    'lines: while !left.is_empty() {
        let (line, after) = split_line(left);
        number += 1;
        if hides_entry(alloc, line, name.as_str(), hmac)? {
            return Ok(Some(number));
        }
        left = after;
    }
    Ok(None)
}
