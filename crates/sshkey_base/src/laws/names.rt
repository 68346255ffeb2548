//! Laws of names.

ghost use Rattle.sshkey_base.specs.Comparisons.{IsEqualityOf, IsOrderOf, curve_key, hash_key, algorithm_key, field_key};
ghost use Rattle.sshkey_base.specs.Names.{curve_of, hash_of, algorithm_of};

use crate::algorithm::{Algorithm, AlgorithmName, EcdsaCurve, HashAlg};
use crate::certificate::Field;

/// Two curves are equal exactly if they mean the same, and they are ordered as they are listed.
pub fn compared_curves()
    ensures equal { IsEqualityOf curve_of ⟦<EcdsaCurve as PartialEq>⟧.eq }
    ensures ordered { IsOrderOf curve_key ⟦<EcdsaCurve as Ord>⟧.cmp }
{}

/// The same of hashes.
pub fn compared_hashes()
    ensures equal { IsEqualityOf hash_of ⟦<HashAlg as PartialEq>⟧.eq }
    ensures ordered { IsOrderOf hash_key ⟦<HashAlg as Ord>⟧.cmp }
{}

/// Two private-use names are equal exactly if their bytes are, and they are ordered by these.
pub fn compared_algorithm_names()
    ensures equal { IsEqualityOf (λ name. name) ⟦<AlgorithmName as PartialEq>⟧.eq }
    ensures ordered { IsOrderOf (λ name. name) ⟦<AlgorithmName as Ord>⟧.cmp }
{}

/// Two algorithms are equal exactly if they mean the same. They are ordered as they are listed,
/// and then by what they hold.
pub fn compared_algorithms()
    ensures equal { IsEqualityOf algorithm_of ⟦<Algorithm as PartialEq>⟧.eq }
    ensures ordered { IsOrderOf algorithm_key ⟦<Algorithm as Ord>⟧.cmp }
{}

/// Two fields are equal exactly if they are the same, and they are ordered as they are listed.
pub fn compared_fields()
    ensures equal { IsEqualityOf (λ field. field) ⟦<Field as PartialEq>⟧.eq }
    ensures ordered { IsOrderOf field_key ⟦<Field as Ord>⟧.cmp }
{}
