//! What runs, by a grant that was written to the caller's room.

ghost use Rattle.std.specs.Prelude.{◌≡◌, ◌⊎◌, [], Some, bit_and, option_map};
ghost use Rattle.login_terms.specs.Questions.{runs};
ghost use Rattle.login_terms.specs.Options.{Terms};
ghost use Rattle.sshkey_calls.specs.Rooms.{IsPartOf};
ghost use Rattle.sshkey_calls.specs.Writing.{WritesContent};
ghost use Rattle.sshkey_c.specs.Grants.{HasCommand, asked_for};

use crate::forwarding::bytes_in;
use crate::grant::{ANY_COMMAND, GrantParts};
use sshkey_calls::number::{DONE, END, SHORT_BUFFER};
use sshkey_calls::part::write_to;

/// What runs where the client asks for that command, or for a shell where `asks_command` is 0 (RFC
/// 4254, section 6.5), by a grant whose bytes are those (`login_terms::Terms::runs`).
///
/// Returns 0 with the command at the front of the room, and its length: it may be empty, and then
/// nothing runs; 2 where the room is too short, which stays as it was; and 3 where a shell runs.
/// Where the command that is forced is not among the bytes, nothing runs. Does not allocate.
#[unsafe(no_mangle)]
pub extern "C" fn raf_runs(
    grant: &GrantParts,
    granted: &[u8],
    asked: &[u8],
    asks_command: u32,
    room: &mut [u8],
    length: &mut usize,
) -> u32
    ensures answer { (t : Terms) → HasCommand t grant.now granted.now
        → WritesContent (λ content. runs t (asked_for asks_command asked.now) ≡ Some content)
        result length.old length.new room.old room.new }
    ensures outside { bit_and grant.now.permits 32 ≡ 0
        → (IsPartOf grant.now.force_command granted.now → ⊥)
        → WritesContent (λ content. content ≡ []) result length.old length.new room.old room.new }
    ensures number { (result ≡ 0) ⊎ (result ≡ 2) ⊎ (result ≡ 3) }
{
    let Some(content) = command_in(grant, granted, asked_for(asks_command, asked)) else {
        return END;
    };
    *length = content.len();
    if write_to(room, content) {
        return DONE;
    }
    SHORT_BUFFER
}

/// The command that the client asks for, if it does not ask for a shell.
fn asked_for(asks_command: u32, asked: &[u8]) -> Option<&[u8]>
    ensures { option_map (λ c. c.now) result ≡ asked_for asks_command asked.now }
{
    if asks_command == 0 {
        return None;
    }
    Some(asked)
}

/// The command that runs, if no shell does.
fn command_in<'a>(
    grant: &GrantParts,
    granted: &'a [u8],
    asked: Option<&'a [u8]>,
) -> Option<&'a [u8]>
    ensures runs { (t : Terms) → HasCommand t grant.now granted.now
        → option_map (λ c. c.now) result ≡ runs t (option_map (λ c. c.now) asked.entry) }
    ensures outside { bit_and grant.now.permits 32 ≡ 0
        → (IsPartOf grant.now.force_command granted.now → ⊥)
        → option_map (λ c. c.now) result ≡ Some [] }
{
    if grant.permits & ANY_COMMAND != 0 {
        return asked;
    }
    Some(bytes_in(grant.force_command, granted))
}
