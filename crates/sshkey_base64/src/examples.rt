//! Worked examples of the definitions, on both sides of each edge.

ghost use Rattle.sshkey_base64.specs.ArmourExamples.{Lines, OtherBase64, OtherLines, WhiteSpace};

/// How lines end, and what follows the last one.
pub fn lines()
    ensures { Lines }
{}

/// White space within Base64.
pub fn white_space()
    ensures { WhiteSpace }
{}

/// What is no first or last line.
pub fn other_lines()
    ensures { OtherLines }
{}

/// What is no Base64.
pub fn other_base64()
    ensures { OtherBase64 }
{}
