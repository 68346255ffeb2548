//! Worked examples of the definitions.

ghost use Rattle.sshkey_c.specs.Examples.{Bounds, Forced, LaidOut, Permitted, Placed, Answered, Seen, Tickets, Told, ByKeys, ByLines, BySignatures};

/// What the terms of a login permit.
pub fn permitted()
    ensures { Permitted }
{}

/// Where they let ports be forwarded.
pub fn placed()
    ensures { Placed }
{}

/// Which questions were answered yes.
pub fn answered()
    ensures { Answered }
{}

/// What the numbers of a caller tell.
pub fn told()
    ensures { Told }
{}

/// Who has seen the client's signature.
pub fn seen()
    ensures { Seen }
{}

/// What names the questions.
pub fn tickets()
    ensures { Tickets }
{}

/// Until when a line counts, and which device a tunnel has.
pub fn bounds()
    ensures { Bounds }
{}

/// Where the parts of a grant stand.
pub fn laid_out()
    ensures { LaidOut }
{}

/// Which command is forced.
pub fn forced()
    ensures { Forced }
{}

/// Which line refuses.
pub fn by_lines()
    ensures { ByLines }
{}

/// What is wrong with a key or a certificate.
pub fn by_keys()
    ensures { ByKeys }
{}

/// What is wrong with a signature.
pub fn by_signatures()
    ensures { BySignatures }
{}
