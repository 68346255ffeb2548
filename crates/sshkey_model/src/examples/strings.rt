//! Examples of numbers, strings, texts and lists of texts.

ghost use Rattle.sshkey_model.specs.StringExamples.{Numbers, Strings, Boxes, Texts, TextLists};

/// Numbers of one, four and eight bytes (RFC 4251, section 5).
pub fn numbers()
    ensures { Numbers }
{}

/// Strings, and lengths that pass what is left.
pub fn strings()
    ensures { Strings }
{}

/// What stands in a string fills it.
pub fn boxes()
    ensures { Boxes }
{}

/// Texts are UTF-8.
pub fn texts()
    ensures { Texts }
{}

/// Lists of texts fill their string.
pub fn text_lists()
    ensures { TextLists }
{}
