//! Options of certificates in bytes, one after the other.

ghost use Rattle.std.specs.Prelude.{◌≡◌, ℕ, List, IfSome, IfNone};
ghost use Rattle.sshkey_model.specs.Options.{HasNesting, Nesting, option_value};
ghost use Rattle.sshkey_model.specs.Parts.{Fits, flat};
ghost use Rattle.sshkey_calls.specs.Certificates.{BeginsWithOption};

use crate::part::Part;
use sshkey_terms::split_string;

/// Where the name and the value of an option are, and where the next one begins.
#[repr(C)]
#[derive(Clone, Copy, Debug)]
pub struct OptionParts {
    /// The name.
    pub name: Part,
    /// The value; many options have an empty one.
    pub value: Part,
    /// The place of the next option.
    pub next: usize,
}

/// The name and the value of the option that the bytes begin with, and what follows it.
pub fn split_option(bytes: &[u8]) -> Option<(&[u8], &[u8], &[u8])>
    ensures split { IfSome result
        (λ found. BeginsWithOption found.0.now found.1.now bytes.now found.2.now) }
    ensures none { IfNone result ((name value rest : List ℕ)
        → BeginsWithOption name value bytes.now rest → ⊥) }
{
    let Ok((name, rest)) = split_string(bytes) else {
        return None;
    };
    let Ok((string, after)) = split_string(rest) else {
        return None;
    };
    match value_in(string) {
        Some(value) => Some((name, value, after)),
        None => None,
    }
}

/// The value in the string after a name: nothing, or what the one string in it holds.
fn value_in(string: &[u8]) -> Option<&[u8]>
    ensures value { IfSome result (λ value. (nesting : Nesting) × HasNesting value.now nesting
        × Fits (option_value value.now nesting)
        × (string.now ≡ flat (option_value value.now nesting))) }
    ensures none { IfNone result ((value : List ℕ) (nesting : Nesting)
        → HasNesting value nesting → Fits (option_value value nesting)
        → string.now ≡ flat (option_value value nesting) → ⊥) }
{
    if string.is_empty() {
        return Some(string);
    }
    match split_string(string) {
        Ok((value, rest)) => if rest.is_empty() { Some(value) } else { None },
        Err(_) => None,
    }
}
