//! Whether a text matches a pattern, without memory, in the time of a pass over the text for each
//! character of the pattern at the most.

ghost use Rattle.std.specs.Prelude.{◌≡◌, ◌≢◌, ◌↔◌, IsTrue, [], ◌∷◌, slice_index};
ghost use Rattle.sshkey_matching.specs.Patterns.{Matches, StandsFor, star, fold_of, FindsFront, GoesOn, IsStuck};

/// Whether the letters of a pattern match in their own case alone.
#[derive(Clone, Copy, Debug)]
pub enum LetterCase {
    /// Each letter matches itself alone.
    Sensitive,
    /// Each ASCII letter matches itself in either case.
    Insensitive,
}

fn is_same(one: u8, other: u8, letter_case: LetterCase) -> bool
    ensures { IsTrue result ↔ (fold_of letter_case one ≡ fold_of letter_case other) }
{
    match letter_case {
        LetterCase::Sensitive => one == other,
        LetterCase::Insensitive => one.to_ascii_lowercase() == other.to_ascii_lowercase(),
    }
}

/// Whether a character of a pattern, which is no star, stands for this character of a text.
fn stands_for(character: u8, other: u8, letter_case: LetterCase) -> bool
    ensures { character ≢ star →
        IsTrue result ↔ StandsFor (fold_of letter_case) character (other ∷ []) }
{
    character == b'?' || is_same(character, other, letter_case)
}

fn begins_with_star(pattern: &[u8]) -> bool
    ensures { IsTrue result ↔ (slice_index pattern.now 0 ≡ star) }
{
    matches!(pattern, [b'*', ..])
}

/// What is left of a pattern and a text after the characters at their fronts that stand for one
/// another, up to a star of the pattern.
fn after_front<'a>(
    pattern: &'a [u8],
    text: &'a [u8],
    letter_case: LetterCase,
) -> (&'a [u8], &'a [u8])
    ensures goes { GoesOn (fold_of letter_case) pattern.now text.now result.0.now result.1.now }
    ensures stuck { IsStuck (fold_of letter_case) result.0.now result.1.now }
{
    let mut rest = pattern;
    let mut left = text;
    'characters: while let Some((character, after)) = rest.split_first() {
        let Some((other, more)) = left.split_first() else {
            return (rest, left);
        };
        if *character == b'*' || !stands_for(*character, *other, letter_case) {
            return (rest, left);
        }
        rest = after;
        left = more;
    }
    (rest, left)
}

/// What is left after the first place of a text from which the pattern matches up to its next star,
/// or up to the ends of both.
fn after_first<'a>(
    pattern: &'a [u8],
    text: &'a [u8],
    letter_case: LetterCase,
) -> Option<(&'a [u8], &'a [u8])>
    ensures { FindsFront (fold_of letter_case) pattern.now text.now result }
{
    let mut from = text;
    'places: loop {
        let (rest, left) = after_front(pattern, from, letter_case);
        if begins_with_star(rest) {
            return Some((rest, left));
        }
        if left.is_empty() {
            return if rest.is_empty() {
                Some((rest, left))
            } else {
                None
            };
        }
        let Some((_, more)) = from.split_first() else {
            return None;
        };
        from = more;
    }
}

/// Whether the bytes of a text match the pattern.
///
/// Of several places at which what stands between two stars matches, the first serves: whatever
/// follows a star matches further on too.
pub(crate) fn is_match(text: &[u8], pattern: &[u8], letter_case: LetterCase) -> bool
    ensures { IsTrue result ↔ Matches (fold_of letter_case) pattern.now text.now }
{
    let (mut rest, mut left) = after_front(pattern, text, letter_case);
    'stars: while let [b'*', after @ ..] = rest {
        let Some((next, more)) = after_first(after, left, letter_case) else {
            return false;
        };
        rest = next;
        left = more;
    }
    rest.is_empty() && left.is_empty()
}

/// Whether the whole text matches the pattern (ssh_config(5), "PATTERNS"): a `*` stands for any
/// bytes, also for none, a `?` for one, and each other byte for itself, a letter as `letter_case`
/// says. A `!` and a comma are bytes like others. Does not allocate.
///
/// OpenSSH calls it `match_pattern`. The time is a pass over the text for each byte of the pattern
/// at the most.
pub fn matches_pattern(text: &str, pattern: &str, letter_case: LetterCase) -> bool
    ensures { IsTrue result ↔ Matches (fold_of letter_case) pattern.now text.now }
{
    is_match(text.as_bytes(), pattern.as_bytes(), letter_case)
}
