//! Laws of public keys: each stands for all values, and makes no call.

ghost use Rattle.sshkey_base.specs.Comparisons.{EqualMeanSame, IsEqualityAmong};
ghost use Rattle.sshkey_public.specs.PublicKeys.{IsOfKey, IsOrderOfPublicKeys, content_of};

use crate::public_key::PublicKey;
use sshkey_keys::laws::compared_keys;

/// Two public keys that are equal mean the same and have one comment, and two of well-formed keys
/// are equal exactly if they do. They are ordered by the key, and then by the comment.
pub fn compared_public_keys()
    ensures equal { IsEqualityAmong IsOfKey content_of ⟦<PublicKey as PartialEq>⟧.eq }
    ensures same { EqualMeanSame content_of ⟦<PublicKey as PartialEq>⟧.eq }
    ensures ordered { IsOrderOfPublicKeys ⟦<PublicKey as Ord>⟧.cmp }
{
    compared_keys();
}
