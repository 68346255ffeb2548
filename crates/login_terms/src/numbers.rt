//! Numbers in texts.

ghost use Rattle.std.specs.Prelude.{MatchOption};
ghost use Rattle.std.specs.Net.Grammar.{IsNumber};
ghost use Rattle.login_terms.specs.Values.{IsNoNumber};

/// The number below 2^32 that the digits of a text write. Does not allocate.
pub(crate) fn read_number(text: &str) -> Option<u32>
    ensures { MatchOption result (IsNoNumber text.now) (λ n. IsNumber 10 text.now n) }
{
    if text.starts_with('+') {
        return None;
    }
    text.parse::<u32>().ok()
}
