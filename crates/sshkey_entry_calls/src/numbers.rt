//! Ports in texts.

ghost use Rattle.std.specs.Prelude.{MatchOption};
ghost use Rattle.std.specs.Net.Grammar.{IsNumber};
ghost use Rattle.sshkey_entries.specs.Answers.{IsTheOne};
ghost use Rattle.sshkey_entry_calls.specs.Destinations.{IsNoNumber, IsPort};

/// The greatest port.
const MOST: u32 = 65_535;

/// A port from 1 on in digits.
pub(crate) fn read_port(text: &str) -> Option<u16>
    ensures { IsTheOne (λ n. n) (IsPort text.now) result }
{
    let Some(number) = read_number(text) else {
        return None;
    };
    if number == 0 || number > MOST {
        return None;
    }
    Some(number as u16)
}

/// The number below 2^32 that the digits of a text write.
fn read_number(text: &str) -> Option<u32>
    ensures { MatchOption result (IsNoNumber text.now) (λ n. IsNumber 10 text.now n) }
{
    if text.starts_with('+') {
        return None;
    }
    text.parse::<u32>().ok()
}
