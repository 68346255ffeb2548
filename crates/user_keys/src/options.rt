//! What the options of a line say.

ghost use Rattle.std.specs.Prelude.{IfOk};
ghost use Rattle.sshkey_entries.specs.Answers.{Tells};
ghost use Rattle.login_terms.specs.Options.{terms_of};
ghost use Rattle.user_keys.specs.Lines.{AreTerms, MayBeTerms};

use login_terms::{Reading, Terms};
use sshkey_authorized_keys::read_options;
use std::alloc::{AllocError, Global};

/// What the options of a text say, one after the other.
pub(crate) fn read_terms(alloc: Global, options: &str) -> Result<Reading<Terms>, AllocError>
    ensures { IfOk result (Tells terms_of (AreTerms options.now) (MayBeTerms options.now)) }
{
    read_options(alloc, Terms::none(alloc), options)
}
