//! Values that are read back from what is written of them.
#![tactic(auto, using(sshkey_model::specs::Grammar::normal_is_spelling))]

ghost use Rattle.std.specs.Prelude.{◌≡◌, length};
ghost use Rattle.sshkey_model.specs.Parts.{Fits, flat};
ghost use Rattle.sshkey_model.specs.Texts.{IsText};

use crate::bytes::Bytes;
use crate::decode::Decode;
use crate::encode::Encode;
use crate::label::Label;
use crate::text::Text;

/// A value whose normal form is one of its spellings, so that it is read back from what is written.
pub trait NormalForm: Decode + Encode {
    /// The value is one that its format has.
    ghost IsWellFormed: { Self → Type 0 };

    /// The normal form is a spelling of the value. Does nothing.
    fn lawful_normal_form()
        ensures { (x : Self) → IsWellFormed x → Fits (Self.normal x) →
            Self.format.Spells (Self.means x) (flat (Self.normal x)) };
}

impl NormalForm for u8 {
    ghost IsWellFormed = { λ _. Unit {0} };

    fn lawful_normal_form() {}
}

impl NormalForm for u32 {
    ghost IsWellFormed = { λ _. Unit {0} };

    fn lawful_normal_form() {}
}

impl NormalForm for u64 {
    ghost IsWellFormed = { λ _. Unit {0} };

    fn lawful_normal_form() {}
}

impl NormalForm for Bytes {
    ghost IsWellFormed = { λ _. Unit {0} };

    fn lawful_normal_form() {}
}

impl NormalForm for Text {
    ghost IsWellFormed = { IsText };

    fn lawful_normal_form() {}
}

impl NormalForm for Vec<u8> {
    ghost IsWellFormed = { λ _. Unit {0} };

    fn lawful_normal_form() {}
}

impl<const N: usize> NormalForm for [u8; N] {
    ghost IsWellFormed = { λ b. length b ≡ N };

    fn lawful_normal_form() {}
}

impl<T: Label> NormalForm for T {
    ghost IsWellFormed = { λ x. T.IsNamed (T.stands_for x) };

    fn lawful_normal_form() {}
}
