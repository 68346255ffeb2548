//! Examples of lines.

ghost use Rattle.sshkey_model.specs.LineExamples.{WordCharacters, LineEnds, NoTexts, Spaces, LastBits, FirstWords};

/// Of all bytes, those that a first word may have.
pub fn word_characters()
    ensures { WordCharacters }
{}

/// What is cut at the end of a line: white space of Unicode, and nothing else.
pub fn line_ends()
    ensures { LineEnds }
{}

/// What is not UTF-8 is no line.
pub fn no_texts()
    ensures { NoTexts }
{}

/// A space too few and one too many.
pub fn spaces()
    ensures { Spaces }
{}

/// Base64 has one form (RFC 4648, section 3.5): its padding, and no bits set that are not used.
pub fn last_bits()
    ensures { LastBits }
{}

/// The first word is the name of the key's algorithm.
pub fn first_words()
    ensures { FirstWords }
{}
