//! Which patterns nobody could take for an address.

ghost use Rattle.std.specs.Prelude.{◌≡◌, ◌↔◌, IsTrue};
ghost use Rattle.std.specs.List.{list_all};
ghost use Rattle.sshkey_matching.specs.FromLists.{has, is_wild, is_digit, is_number_character, is_like_number, is_like_address, is_letter, is_pattern_character, IsPlainPattern};

/// The least number of bytes that is too long for a pattern: OpenSSH has 1,024 bytes for one.
const TOO_LONG: usize = 1023;

/// Whether the text is a pattern, and nothing that sshd(8), or whoever wrote it, could take for an
/// address or a network.
pub(crate) fn is_plain_pattern(text: &str) -> bool
    ensures { IsTrue result ↔ IsPlainPattern text.now }
{
    let text = text.as_bytes();
    if text.is_empty() || text.len() >= TOO_LONG {
        return false;
    }
    if !has_pattern_characters(text) {
        return false;
    }
    is_wild(text) || !is_like_address(text)
}

/// Whether the text holds a colon, or is like a number.
pub(crate) fn is_like_address(text: &[u8]) -> bool
    ensures { result ≡ is_like_address text.now }
{
    has(text, b':') || is_like_number(text)
}

fn has(text: &[u8], byte: u8) -> bool
    ensures { result ≡ has byte text.now }
{
    text.contains(&byte)
}

fn is_wild(text: &[u8]) -> bool
    ensures { result ≡ is_wild text.now }
{
    has(text, b'*') || has(text, b'?')
}

fn is_digit(byte: u8) -> bool
    ensures { result ≡ is_digit byte }
{
    b'0' <= byte && byte <= b'9'
}

fn is_number_character(byte: u8) -> bool
    ensures { result ≡ is_number_character byte }
{
    is_digit(byte) || matches!(byte, b'.' | b'a'..=b'f' | b'A'..=b'F' | b'x' | b'X')
}

/// A letter, a digit, or what else names, addresses and patterns have.
fn is_pattern_character(byte: u8) -> bool
    ensures { result ≡ is_pattern_character byte }
{
    is_letter(byte) || is_digit(byte) || matches!(byte, b'-' | b'.' | b'_' | b':' | b'*' | b'?')
}

fn is_letter(byte: u8) -> bool
    ensures { result ≡ is_letter byte }
{
    matches!(byte, b'a'..=b'z' | b'A'..=b'Z')
}

fn has_pattern_characters(text: &[u8]) -> bool
    ensures { result ≡ list_all is_pattern_character text.now }
{
    text.iter().all(|byte| is_pattern_character(*byte))
}

/// Whether inet_aton(3) may take the text for a number, or for several with dots between.
fn is_like_number(text: &[u8]) -> bool
    ensures { result ≡ is_like_number text.now }
{
    let [first, ..] = text else {
        return false;
    };
    is_digit(*first) && has_number_characters(text)
}

fn has_number_characters(text: &[u8]) -> bool
    ensures { result ≡ list_all is_number_character text.now }
{
    text.iter().all(|byte| is_number_character(*byte))
}
