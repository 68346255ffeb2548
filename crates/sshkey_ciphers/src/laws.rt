//! Laws of ciphers and key derivations. They make no call: each is a fact about the definitions.

#![tactic(auto, using(crate::proofs::Lawful::laws))]

ghost use Rattle.std.specs.Prelude.{◌↔◌, ℕ, List};
ghost use Rattle.sshkey_base.specs.Comparisons.{IsEqualityOf, IsOrderOf};
ghost use Rattle.sshkey_model.specs.Grammar.{IsGrammar, Spells};
ghost use Rattle.sshkey_model.specs.KeyDerivation.{Kdf as TheKdf, cipher, kdf, kdf_algorithm};
ghost use Rattle.sshkey_model.specs.Laws.{DetermineValues, ReadBack};
ghost use Rattle.sshkey_model.specs.Parts.{Any, IsPrefixFree};
ghost use Rattle.sshkey_ciphers.specs.Ciphers.{cipher_of, kdf_algorithm_of, kdf_of, cipher_key, kdf_algorithm_key};
ghost use Rattle.sshkey_ciphers.specs.Formats.{SpellsKdf, cipher_at, kdf_algorithm_at, kdf_at};

use crate::cipher::Cipher;
use crate::kdf::Kdf;
use crate::kdf_alg::KdfAlg;

/// Two ciphers are equal exactly if they mean the same, and they are ordered as they are listed.
pub fn compared_ciphers()
    ensures equal { IsEqualityOf cipher_of ⟦<Cipher as PartialEq>⟧.eq }
    ensures ordered { IsOrderOf cipher_key ⟦<Cipher as Ord>⟧.cmp }
{}

/// The same of the algorithms of key derivation.
pub fn compared_kdf_algorithms()
    ensures equal { IsEqualityOf kdf_algorithm_of ⟦<KdfAlg as PartialEq>⟧.eq }
    ensures ordered { IsOrderOf kdf_algorithm_key ⟦<KdfAlg as Ord>⟧.cmp }
{}

/// Two key derivations are equal exactly if they mean the same.
pub fn equal_kdfs()
    ensures { IsEqualityOf kdf_of ⟦<Kdf as PartialEq>⟧.eq }
{}

/// The term of key derivations spells exactly what PROTOCOL.key lays out.
pub fn spelled_kdf()
    ensures { (k : TheKdf) (b : List ℕ) → SpellsKdf k b ↔ Spells Any kdf k b }
{}

/// Names of ciphers are read exactly where they are spelled.
pub fn exact_cipher()
    ensures { IsGrammar (Spells Any cipher) cipher_at }
{}

/// Names of key derivations are read exactly where they are spelled.
pub fn exact_kdf_name()
    ensures { IsGrammar (Spells Any kdf_algorithm) kdf_algorithm_at }
{}

/// Key derivations are read exactly where they are spelled.
pub fn exact_kdf()
    ensures { IsGrammar SpellsKdf kdf_at }
{}

/// No name of a cipher begins another.
pub fn prefix_cipher()
    ensures { IsPrefixFree Any cipher }
{}

/// No name of a key derivation begins another.
pub fn prefix_kdf_name()
    ensures { IsPrefixFree Any kdf_algorithm }
{}

/// No key derivation begins another.
pub fn prefix_kdf()
    ensures { IsPrefixFree Any kdf }
{}

/// Two key derivations are written alike exactly if they are equal.
pub fn normal_kdfs()
    ensures { DetermineValues Any kdf }
{}

/// A written key derivation is read as that derivation.
pub fn read_back_kdf()
    ensures { ReadBack Any kdf kdf_at }
{}
