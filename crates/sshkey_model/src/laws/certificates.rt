//! Laws of certificates: each stands for all values, and makes no call.

ghost use Rattle.sshkey_model.specs.OptionMaps.{InsertOneOption};
ghost use Rattle.sshkey_model.specs.Refusals.{RefuseTheInvalid, RefuseTheUnwanted};
ghost use Rattle.sshkey_model.specs.Drafts.{SignedIsValid};

/// Nothing is found wrong with a certificate exactly where it is valid.
pub fn refused_or_valid()
    ensures { RefuseTheInvalid }
{}

/// Nothing is found wrong with a certificate and a wanted principal exactly where it is valid and
/// allows that principal.
pub fn refused_or_wanted()
    ensures { RefuseTheUnwanted }
{}

/// An option that is inserted is the one of its name from then on, and no other name is touched.
pub fn inserted_option()
    ensures { InsertOneOption }
{}

/// What was drafted and signed is valid through its window, for whoever has the signer's
/// fingerprint.
pub fn signed_is_valid()
    ensures { SignedIsValid }
{}
