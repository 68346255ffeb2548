//! Whether what `permitopen` or `permitlisten` names stands for what a client asks for.

ghost use Rattle.std.specs.Prelude.{◌↔◌, IsTrue, map};
ghost use Rattle.std.specs.Char.{to_ascii_lowercase};
ghost use Rattle.std.specs.List.{All};
ghost use Rattle.sshkey_matching.specs.Patterns.{fold_of, Matches};
ghost use Rattle.sshkey_matching.specs.declared.pattern.LetterCase.TheVariants.{Sensitive};
ghost use Rattle.login_terms.specs.Questions.{IsPortOf, IsSmall, Listens, Opens};

use sshkey_matching::{LetterCase, matches_pattern};

/// Whether the host and the port that `permitopen` names stand for those to which a client wants a
/// port forwarded: `*` for any host, another for itself alone, byte by byte, and no port for any.
/// Does not allocate.
pub fn opens(named: &str, named_port: Option<u16>, host: &str, port: u32) -> bool
    ensures { IsTrue result ↔ Opens named.now named_port host.now port }
{
    is_port_of(named_port, port) && (named == "*" || named == host)
}

/// Whether the host and the port that `permitlisten` names stand for those at which a client wants
/// to listen: the host is a pattern, which the other one matches in small letters, and no port
/// stands for any. Does not allocate.
pub fn listens(named: &str, named_port: Option<u16>, host: &str, port: u32) -> bool
    ensures { IsTrue result ↔ Listens named.now named_port host.now port }
{
    is_port_of(named_port, port) && matches_in_small_letters(named, host)
}

/// Whether the host in small letters matches the pattern.
fn matches_in_small_letters(pattern: &str, host: &str) -> bool
    ensures { IsTrue result
        ↔ Matches (fold_of Sensitive) pattern.now (map to_ascii_lowercase host.now) }
{
    if !has_no_capital(pattern.as_bytes()) {
        return false;
    }
    matches_pattern(host, pattern, LetterCase::Insensitive)
}

/// Whether a port that is named, or none for any, stands for that port.
fn is_port_of(named: Option<u16>, port: u32) -> bool
    ensures { IsTrue result ↔ IsPortOf named port }
{
    match named {
        Some(named) => u32::from(named) == port,
        None => true,
    }
}

/// Whether no letter of the text is a capital one.
fn has_no_capital(text: &[u8]) -> bool
    ensures { IsTrue result ↔ All IsSmall text.now }
{
    !text.iter().any(|byte| byte.is_ascii_uppercase())
}
