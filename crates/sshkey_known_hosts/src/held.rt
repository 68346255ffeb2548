//! Lines of known_hosts that are held: many hosts are asked about, and no line is read again.

ghost use Rattle.std.specs.Prelude.{◌≡◌, ◌<◌, ℕ, List, IsTrue, IfOk, IfErr, length};
ghost use Rattle.sshkey_base.specs.declared.error.Error.TheVariants as wide;
ghost use Rattle.sshkey_entries.specs.Fields.{filled_lines};
ghost use Rattle.sshkey_entries.specs.HostVerdicts.{AreForName, known_name, standard_port};
ghost use Rattle.sshkey_entries.specs.Items.{patterns};
ghost use Rattle.sshkey_entries.specs.Patterns.{question_mark, star};
ghost use Rattle.sshkey_model.specs.Lines.{IsWithout};
ghost use Rattle.sshkey_known_hosts.specs.HeldLines.{held_lines, lines_of, SaySame};
ghost use Rattle.sshkey_known_hosts.specs.HeldNames.{IsAmong, MayBeFor, name_hash};

use crate::held_line::HeldLine;
use crate::host_name::known_name;
use crate::marker_field::{is_without, split_marker_bytes};
use crate::named_hosts::begins_with_bar;
use sshkey_base::Result;
use sshkey_entries::bytes::{is_filled, skip_blanks, split_blank, split_line};
use sshkey_entries::split_first_pattern;
use std::alloc::Global;

/// The number of a line that may be for any name.
const ANY_NAME: u64 = u64::MAX;

/// The port at which a host is known by its plain name.
pub(crate) const STANDARD_PORT: u16 = 22;

/// The hash of a name, whatever the case of its letters (FNV-1a of 64 bits).
pub(crate) fn name_hash(name: &[u8]) -> u64
    ensures { result ≡ name_hash name.now }
{
    let mut hash = 0xcbf2_9ce4_8422_2325_u64;
    let mut rest = name;
    'bytes: while let Some((byte, after)) = rest.split_first() {
        hash = (hash ^ u64::from(byte.to_ascii_lowercase())).wrapping_mul(0x100_0000_01b3);
        rest = after;
    }
    hash
}

/// Whether the pattern matches no text but itself.
fn is_literal(pattern: &[u8]) -> bool
    ensures star { IsTrue result → IsWithout star pattern.now }
    ensures question_mark { IsTrue result → IsWithout question_mark pattern.now }
{
    is_without(b'*', pattern) && is_without(b'?', pattern)
}

/// The bits of the hashes of all the names that patterns may be for.
fn names_of_patterns(text: &[u8]) -> u64
    ensures { (name : List ℕ) → AreForName name (patterns text.now) →
        IsAmong result (name_hash name) }
{
    let mut names = 0;
    let mut rest = text;
    'patterns: while !rest.is_empty() {
        let (pattern, more) = split_first_pattern(rest);
        if !is_literal(pattern) {
            return ANY_NAME;
        }
        names |= name_hash(pattern);
        rest = more;
    }
    names
}

/// The same of the names that a line may be for.
pub(crate) fn names_of_line(line: &[u8]) -> u64
    ensures { MayBeFor result line.now }
{
    if !is_without(0, line) {
        return ANY_NAME;
    }
    let Ok((_, unmarked)) = split_marker_bytes(skip_blanks(line)) else {
        return ANY_NAME;
    };
    let (hosts, _) = split_blank(unmarked);
    if hosts.is_empty() || begins_with_bar(hosts) {
        return ANY_NAME;
    }
    names_of_patterns(hosts)
}

/// The lines of a text of known_hosts that are neither empty nor comments, to be asked by
/// `texts_for`. They are slices of the text. Of each the names are read, and no key.
///
/// Fails only when out of memory, and never of a text that is empty or has comments alone.
pub fn hold_lines(alloc: Global, text: &[u8]) -> Result<Vec<HeldLine<'_>>>
    ensures lines { IfOk result (λ held. held_lines held.items ≡ filled_lines text.now) }
    ensures memory { IfErr result (λ e. e ≡ wide.Memory) }
    ensures asks { IfErr result (λ _. 0 < length (filled_lines text.now)) }
{
    let mut held = Vec::new(alloc);
    let mut left = text;
    'lines: while !left.is_empty() {
        let (line, after) = split_line(left);
        let filled = skip_blanks(line);
        if is_filled(filled) {
            held.push(HeldLine {
                text: &left[..left.len() - after.len()],
                names: names_of_line(filled),
            })?;
        }
        left = after;
    }
    Ok(held)
}

/// The texts of those lines that may be for the host at that port, or for its plain name: all other
/// lines say nothing of it, so `key_verdict`, `authorities` and `host_keys` answer by these as by
/// all. They are few, unless many lines have a pattern or a hash, which may be for any host. Each
/// other line costs a look at a number.
///
/// Ask for each host and port anew, an address in its canonical text, under which it is listed
/// (`sshkey_matching::asked_host`).
///
/// Fails only when out of memory, which the host's name takes.
pub fn texts_for<'a>(
    alloc: Global,
    held: &[HeldLine<'a>],
    host: &str,
    port: u16,
) -> Result<Vec<&'a [u8]>>
    ensures own { IfOk result (λ texts. (hmac : List ℕ → List ℕ → List ℕ) → SaySame hmac
        (known_name host.now port) (held_lines held.now) (lines_of texts.items)) }
    ensures plain { IfOk result (λ texts. (hmac : List ℕ → List ℕ → List ℕ) → SaySame hmac
        (known_name host.now standard_port) (held_lines held.now) (lines_of texts.items)) }
    ensures memory { IfErr result (λ e. e ≡ wide.Memory) }
{
    let own = name_hash(known_name(alloc, host, port)?.as_str().as_bytes());
    let plain = name_hash(known_name(alloc, host, STANDARD_PORT)?.as_str().as_bytes());
    let mut texts = Vec::new(alloc);
    for line in held {
        if line.is_perhaps_for(own) || line.is_perhaps_for(plain) {
            texts.push(line.text)?;
        }
    }
    Ok(texts)
}
