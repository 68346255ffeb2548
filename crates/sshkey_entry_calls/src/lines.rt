//! The lines of a text that may be entries, one after the other.

ghost use Rattle.std.specs.Prelude.{◌≡◌, drop};

/// The bytes from that place on.
pub fn rest_from(text: &[u8], place: usize) -> &[u8]
    ensures { result.now ≡ drop place text.now }
{
    if place < text.len() {
        &text[place..]
    } else {
        &[]
    }
}
