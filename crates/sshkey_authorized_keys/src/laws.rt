//! Laws of equality: each stands for all values, and makes no call.

ghost use Rattle.sshkey_base.specs.Comparisons.{EqualMeanSame, IsEqualityAmong, IsEqualityOf};
ghost use Rattle.sshkey_authorized_keys.specs.AuthorizedEntries.{IsOfKey, authorized_key_of};

use crate::config_opts::ConfigOpts;
use crate::entry::Entry;
use sshkey_public::laws::compared_public_keys;

/// Two options are equal exactly if their texts are.
pub fn equal_config_opts()
    ensures { IsEqualityOf (λ o. o) ⟦<ConfigOpts as PartialEq>⟧.eq }
{}

/// Two entries that are equal mean the same, and two of well-formed keys are equal exactly if they
/// do.
pub fn equal_authorized_keys()
    ensures equal { IsEqualityAmong IsOfKey authorized_key_of ⟦<Entry as PartialEq>⟧.eq }
    ensures same { EqualMeanSame authorized_key_of ⟦<Entry as PartialEq>⟧.eq }
{
    compared_public_keys();
}
