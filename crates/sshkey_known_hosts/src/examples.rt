//! Worked examples of the definitions, on both sides of each edge.

ghost use Rattle.sshkey_known_hosts.specs.Examples.{AuthorityLines, Blanks, BrokenLines, Comments, FormerKinds, Hashes, LineKinds, Markers, Names, Numbers, Orders, Patterns, Severities, WrittenLines};
ghost use Rattle.sshkey_known_hosts.specs.HeldExamples.{NameHashes, Places, SameLines, ToldNames};
ghost use Rattle.sshkey_known_hosts.specs.HmacExamples.{Digests};

/// Patterns of hosts.
pub fn patterns()
    ensures { Patterns }
{}

/// Names that are asked about.
pub fn names()
    ensures { Names }
{}

/// Hashes of names.
pub fn hashes()
    ensures { Hashes }
{}

/// Lines that are no entries.
pub fn broken_lines()
    ensures { BrokenLines }
{}

/// Lines with keys of former kinds.
pub fn former_kinds()
    ensures { FormerKinds }
{}

/// Blanks in a line.
pub fn blanks()
    ensures { Blanks }
{}

/// Several lines.
pub fn orders()
    ensures { Orders }
{}

/// HMAC-SHA1.
pub fn hmacs()
    ensures { Digests }
{}

/// Comments of any bytes.
pub fn comments()
    ensures { Comments }
{}

/// The more severe of two verdicts.
pub fn severities()
    ensures { Severities }
{}

/// Markers.
pub fn markers()
    ensures { Markers }
{}

/// Lines of authorities.
pub fn authority_lines()
    ensures { AuthorityLines }
{}

/// Numbers of lines.
pub fn numbers()
    ensures { Numbers }
{}

/// Lines that are written.
pub fn written_lines()
    ensures { WrittenLines }
{}

/// What a line is to a host.
pub fn line_kinds()
    ensures { LineKinds }
{}

/// Hashes of names.
pub fn name_hashes()
    ensures { NameHashes }
{}

/// For which names lines are told.
pub fn told_names()
    ensures { ToldNames }
{}

/// Lines that say the same.
pub fn same_lines()
    ensures { SameLines }
{}

/// Places of lines.
pub fn line_places()
    ensures { Places }
{}
