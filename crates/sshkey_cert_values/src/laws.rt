//! Laws of what a certificate holds: each stands for all values, and makes no call.

ghost use Rattle.std.specs.Prelude.{◌≡◌, ◌++◌, ℕ, List};
ghost use Rattle.sshkey_model.specs.Options.{CertificateOption, SpellsOptions};
ghost use Rattle.sshkey_base.specs.Comparisons.{EqualMeanSame, IsEqualityAmong, IsEqualityOf, IsOrderOf};
ghost use Rattle.sshkey_model.specs.Certificates.{SpellsToBeSigned, to_be_signed_format};
ghost use Rattle.sshkey_model.specs.Grammar.{IsGrammar};
ghost use Rattle.sshkey_cert_values.specs.CertificateFields.{type_of, options_of, end_of, time_of, to_be_signed_of};
ghost use Rattle.sshkey_cert_values.specs.Comparisons.{IsOrderOfOptions, time_key, end_key, type_key, HasKeys, IsOrderOfFields};

use crate::cert_type::CertType;
use crate::certificate_fields::CertificateFields;
use crate::end_time::EndTime;
use crate::options_map::OptionsMap;
use crate::unix_time::UnixTime;
use sshkey_keys::laws::compared_keys;
pub use sshkey_model::laws::prefix_options;

/// No options begin others: what follows them does not matter, and they are those of one map.
pub fn one_options()
    ensures { (o p : List CertificateOption) (a b r q : List ℕ) → SpellsOptions o a →
        SpellsOptions p b → a ++ r ≡ b ++ q → (o ≡ p) × (a ≡ b) × (r ≡ q) }
{}

/// Two times are equal exactly if they are the same second, and the earlier one is the less.
pub fn compared_times()
    ensures equal { IsEqualityOf time_of ⟦<UnixTime as PartialEq>⟧.eq }
    ensures ordered { IsOrderOf time_key ⟦<UnixTime as Ord>⟧.cmp }
{}

/// The same of ends; no end comes after every time.
pub fn compared_ends()
    ensures equal { IsEqualityOf end_of ⟦<EndTime as PartialEq>⟧.eq }
    ensures ordered { IsOrderOf end_key ⟦<EndTime as Ord>⟧.cmp }
{}

/// Two types are equal exactly if they mean the same, and a user comes before a host.
pub fn compared_types()
    ensures equal { IsEqualityOf type_of ⟦<CertType as PartialEq>⟧.eq }
    ensures ordered { IsOrderOf type_key ⟦<CertType as Ord>⟧.cmp }
{}

/// Two maps are equal exactly if they have the same options, and they are ordered as the lists of
/// these, in the order of the names: by the first that differs, and there by the name first.
pub fn compared_options()
    ensures equal { IsEqualityOf options_of ⟦<OptionsMap as PartialEq>⟧.eq }
    ensures ordered { IsOrderOfOptions ⟦<OptionsMap as Ord>⟧.cmp }
{}

/// What is signed: two that are equal mean the same, and with well-formed keys two are equal exactly
/// if they do. They are ordered by the first field that differs, from the nonce on; options as their lists.
pub fn compared_signed_fields()
    ensures equal { IsEqualityAmong HasKeys to_be_signed_of ⟦<CertificateFields as PartialEq>⟧.eq }
    ensures same { EqualMeanSame to_be_signed_of ⟦<CertificateFields as PartialEq>⟧.eq }
    ensures ordered { IsOrderOfFields ⟦<CertificateFields as Ord>⟧.cmp }
{
    compared_keys();
    compared_types();
    compared_times();
    compared_ends();
    compared_options();
}

/// It is read exactly where PROTOCOL.certkeys spells it, with each way to spell an empty value and
/// the authority's name.
#[tactic(auto, using(crate::proofs::Lawful::to_be_signed_grammar))]
pub fn exact_to_be_signed()
    ensures { IsGrammar SpellsToBeSigned to_be_signed_format.read }
{}
