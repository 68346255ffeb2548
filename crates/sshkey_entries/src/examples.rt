//! Worked examples of the definitions, on both sides of each edge.
#![tactic(auto, unfolding(crate::specs::Computed::trim_end, crate::specs::Computed::chars, crate::specs::Computed::encode_utf8, crate::specs::Computed::encode_symbols, crate::specs::Entries::uncommented, crate::specs::Items::is_odd, crate::specs::Items::is_quoted, crate::specs::Items::items, crate::specs::Items::patterns, crate::specs::Fields::is_inside))]

ghost use Rattle.sshkey_entries.specs.EntryExamples.{HashedHosts, Marked, Options};
ghost use Rattle.sshkey_entries.specs.Examples.{Lines, CommentCuts, FormerNames, Items, Patterns, Characters, HashedName, Quoted, WhiteSpace, WordEnds};

/// Lines of a text.
pub fn lines()
    ensures { Lines }
{}

/// What is cut of a line.
pub fn cuts()
    ensures { CommentCuts }
{}

/// Items of options.
pub fn items()
    ensures { Items }
{}

/// Patterns of hosts.
pub fn patterns()
    ensures { Patterns }
{}

/// Of all bytes, those that options may have.
pub fn characters()
    ensures { Characters }
{}

/// The text of a hashed name.
pub fn hashed_name()
    ensures { HashedName }
{}

/// Places inside quotes.
pub fn quoted()
    ensures { Quoted }
{}

/// Lines of authorized_keys, with options and without.
pub fn option_lines()
    ensures { Options }
{}

/// Lines of known_hosts, with markers and without.
pub fn marked_lines()
    ensures { Marked }
{}

/// Hashed names, and the sizes of their hashes.
pub fn hashed_hosts()
    ensures { HashedHosts }
{}

/// White space that ends no field.
pub fn white_space()
    ensures { WhiteSpace }
{}

/// Words with white space behind them.
pub fn word_ends()
    ensures { WordEnds }
{}

/// Names of former kinds of keys.
pub fn former_names()
    ensures { FormerNames }
{}
