//! Worked examples of the definitions, on both sides of each edge.

ghost use Rattle.allowed_signers.specs.Examples.{Entries, Fronts, Lines, OptionNames, Orders, Permitted, Signed, Values, Verdicts};

/// The front of a line.
pub fn fronts()
    ensures { Fronts }
{}

/// Names of options.
pub fn option_names()
    ensures { OptionNames }
{}

/// What options add.
pub fn values()
    ensures { Values }
{}

/// Times in their order.
pub fn orders()
    ensures { Orders }
{}

/// What options permit.
pub fn permitted()
    ensures { Permitted }
{}

/// Which entry is a key's.
pub fn entries()
    ensures { Entries }
{}

/// Which lines let nobody sign.
pub fn lines()
    ensures { Lines }
{}

/// Who has signed.
pub fn signed()
    ensures { Signed }
{}

/// Which signature counts.
pub fn verdicts()
    ensures { Verdicts }
{}
