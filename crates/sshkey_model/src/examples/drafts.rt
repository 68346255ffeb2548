//! Examples of maps of options, of the making of certificates, and of what is wrong with some.

ghost use Rattle.sshkey_model.specs.DraftExamples.{InsertedOptions, DraftWindows, DraftSteps, DraftDefaults};
ghost use Rattle.sshkey_model.specs.RefusalExamples.{RefusalOrder, WantedPrincipals};

/// What is wrong with a certificate: the signature first, the window last.
pub fn refusal_order()
    ensures { RefusalOrder }
{}

/// The principals that a certificate allows.
pub fn wanted_principals()
    ensures { WantedPrincipals }
{}

/// Options that are inserted into a map.
pub fn inserted_options()
    ensures { InsertedOptions }
{}

/// The windows that a certificate may be drafted for.
pub fn draft_windows()
    ensures { DraftWindows }
{}

/// The steps of a draft, and those that are rejected.
pub fn draft_steps()
    ensures { DraftSteps }
{}

/// What a draft makes of fields that were not set.
pub fn draft_defaults()
    ensures { DraftDefaults }
{}
