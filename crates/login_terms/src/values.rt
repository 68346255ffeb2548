//! Times, variables and devices.

ghost use Rattle.std.specs.Prelude.{◌≡◌, ◌↔◌, IsTrue};
ghost use Rattle.std.specs.List.{list_all, list_any};
ghost use Rattle.sshkey_entries.specs.Answers.{IsTheOne, Tells};
ghost use Rattle.login_terms.specs.Values.{IsTunnel, IsVariable, IsVariableName, MayBeTime, MayBeTunnel, is_space, is_variable_character};
ghost use Rattle.sshkey_matching.specs.Times.{IsTimeText};

use crate::numbers::read_number;
use sshkey_entries::Reading;
use sshkey_matching::{Span, has_time_form, read_time};

/// The number that stands for any device (SSH_TUNID_ANY).
pub const ANY_TUNNEL: u32 = 0x7fff_ffff;

/// The greatest number of a device (SSH_TUNID_MAX).
const LAST_TUNNEL: u32 = 0x7fff_fffd;

/// The value of `expiry-time`: the seconds that it may be.
pub(crate) fn read_expiry(text: &str) -> Reading<Span>
    ensures { Tells (λ s. s) (IsTimeText text.now) (MayBeTime text.now) result }
{
    match read_time(text) {
        Some(span) => Reading::Is(span),
        None => if has_time_form(text) || has_space(text.as_bytes()) {
            Reading::Unclear
        } else {
            Reading::Rejected
        },
    }
}

fn has_space(text: &[u8]) -> bool
    ensures { result ≡ list_any is_space text.now }
{
    text.iter().any(|byte| is_space(*byte))
}

/// Whether it is white space to isspace(3).
fn is_space(byte: u8) -> bool
    ensures { result ≡ is_space byte }
{
    byte == b' ' || (byte >= b'\t' && byte <= b'\r')
}

/// The value of `tunnel`: a device's number, or any.
pub(crate) fn read_tunnel(text: &str) -> Reading<u32>
    ensures { Tells (λ n. n) (IsTunnel text.now) (MayBeTunnel text.now) result }
{
    if text.eq_ignore_ascii_case("any") {
        return Reading::Is(ANY_TUNNEL);
    }
    let Some(number) = read_number(text) else {
        return Reading::Unclear;
    };
    if number > LAST_TUNNEL {
        return Reading::Rejected;
    }
    Reading::Is(number)
}

/// The name of a variable, of which `environment` gives the value: what stands before the `=`.
pub(crate) fn variable_name(text: &str) -> Option<&str>
    ensures { IsTheOne (λ name. name.now) (IsVariable text.now) result }
{
    let Some((name, _)) = text.split_once('=') else {
        return None;
    };
    if !is_variable_name(name) {
        return None;
    }
    Some(name)
}

fn is_variable_name(name: &str) -> bool
    ensures { IsTrue result ↔ IsVariableName name.now }
{
    !name.is_empty() && are_variable_characters(name.as_bytes())
}

fn are_variable_characters(name: &[u8]) -> bool
    ensures { result ≡ list_all is_variable_character name.now }
{
    name.iter().all(|byte| is_variable_character(*byte))
}

fn is_variable_character(byte: u8) -> bool
    ensures { result ≡ is_variable_character byte }
{
    byte.is_ascii_alphanumeric() || byte == b'_'
}
