//! Texts and lines without a line end in them.

ghost use Rattle.std.specs.Prelude.{◌≡◌, ◌⊎◌, ◌↔◌, ℕ, List, IsTrue};
ghost use Rattle.sshkey_model.specs.Lines.{written};
ghost use Rattle.sshkey_public.specs.WrittenLines.{IsOneLine, line_feed, carriage_return};

fn is_line_end(byte: u8) -> bool
    ensures { IsTrue result ↔ ((byte ≡ line_feed) ⊎ (byte ≡ carriage_return)) }
{
    matches!(byte, b'\n' | b'\r')
}

/// Whether the text holds no line feed and no carriage return. Does not allocate.
pub fn is_one_line(text: &str) -> bool
    ensures { IsTrue result ↔ IsOneLine text.now }
{
    !text.as_bytes().iter().any(|byte| is_line_end(*byte))
}

/// Whether a line of that first word and that comment holds no line feed and no carriage return,
/// whatever its blob. Does not allocate.
pub fn makes_one_line(first: &str, comment: &str) -> bool
    ensures { (blob : List ℕ) → IsTrue result ↔ IsOneLine (written first.now blob comment.now) }
{
    is_one_line(first) && is_one_line(comment)
}
