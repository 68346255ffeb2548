//! Laws over the definitions alone: each stands for all lines, and makes no call.

ghost use Rattle.user_keys.specs.Laws.{WordsAreMarked};

/// A key may be spelled in each line with a word that is the Base64 of bytes in which the key's own
/// part stands, with white space within it or none. So no such line is passed over.
pub fn marked_words()
    ensures { WordsAreMarked }
{}
