//! The name of a host in known_hosts, and which patterns name it.

ghost use Rattle.std.specs.Prelude.{◌≡◌, ◌↔◌, IsTrue, IfOk, IfErr, string_bytes};
ghost use Rattle.std.specs.Char.{to_ascii_lowercase};
ghost use Rattle.std.specs.List.{All, Any};
ghost use Rattle.sshkey_base.specs.declared.error.Error.TheVariants as wide;
ghost use Rattle.sshkey_entries.specs.HostVerdicts.{AreForName, BeginWithBar, known_name};
ghost use Rattle.sshkey_entries.specs.Patterns.{IsShortPattern, MatchesUnnegated, MatchesNegated};

use sshkey_base::{Result, Text};
use sshkey_entries::{LetterCase, is_named_by, is_refused_by, is_short_pattern};
use std::alloc::Global;

/// The port at which a host is known by its bare name.
const STANDARD_PORT: u16 = 22;

/// The name of a host in known_hosts, in small letters. Fails only when out of memory.
pub(crate) fn known_name(alloc: Global, host: &str, port: u16) -> Result<String>
    ensures name { IfOk result (λ s. string_bytes s ≡ known_name host.now port) }
    ensures memory { IfErr result (λ e. e ≡ wide.Memory) }
{
    let mut name = String::from_str(alloc, host)?;
    name.make_ascii_lowercase();
    if port == STANDARD_PORT {
        return Ok(name);
    }
    Ok(format!(in alloc; "[{name}]:{port}")?)
}

fn some_refuses(patterns: &[Text], name: &str) -> bool
    ensures { IsTrue result ↔ Any (MatchesNegated to_ascii_lowercase name.now) patterns.now }
{
    for pattern in patterns {
        if is_refused_by(name, pattern.as_str(), LetterCase::Insensitive) {
            return true;
        }
    }
    false
}

fn some_names(patterns: &[Text], name: &str) -> bool
    ensures { IsTrue result ↔ Any (MatchesUnnegated to_ascii_lowercase name.now) patterns.now }
{
    for pattern in patterns {
        if is_named_by(name, pattern.as_str(), LetterCase::Insensitive) {
            return true;
        }
    }
    false
}

/// Whether OpenSSH reads patterns of these lengths.
fn are_short(patterns: &[Text]) -> bool
    ensures { IsTrue result ↔ All IsShortPattern patterns.now }
{
    for pattern in patterns {
        if !is_short_pattern(pattern.as_str()) {
            return false;
        }
    }
    true
}

/// Whether OpenSSH takes them for a hash.
fn begin_with_bar(patterns: &[Text]) -> bool
    ensures { IsTrue result ↔ BeginWithBar patterns.now }
{
    match patterns {
        [first, ..] => first.as_str().starts_with('|'),
        [] => false,
    }
}

/// Whether a pattern names it, and no negated one rejects it. No pattern may be too long, and no
/// bar stand at the front.
pub(crate) fn are_named(patterns: &[Text], name: &str) -> bool
    ensures { IsTrue result ↔ AreForName name.now patterns.now }
{
    if begin_with_bar(patterns) || !are_short(patterns) {
        return false;
    }
    some_names(patterns, name) && !some_refuses(patterns, name)
}
