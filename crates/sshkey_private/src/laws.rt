//! Laws of private keys: each stands for all values.

ghost use Rattle.std.specs.Prelude.{◌≡◌, ◌↔◌, ℕ, List, Ok};
ghost use Rattle.sshkey_base.specs.Comparisons.{EqualMeanSame, IsEqualityAmong};
ghost use Rattle.sshkey_model.specs.Grammar.{IsGrammar, IsSpelled, SpellsWith, spelled};
ghost use Rattle.sshkey_model.specs.Laws.{DetermineValues, ReadBack};
ghost use Rattle.sshkey_model.specs.Parts.{IsPrefixFree};
ghost use Rattle.sshkey_model.specs.PrivateKeys.{PrivateKey as ThePrivateKey, HasPrivateKeyPlaces, IsPrivateKey, normal_private_key, private_key};
ghost use Rattle.sshkey_model.specs.Reading.{whole};
ghost use Rattle.sshkey_private.specs.Comparisons.{IsBesideKey, seen};
ghost use Rattle.sshkey_private.specs.PrivateKeyFormats.{HasPaddedPlaces, padded_private_key, file_format, IsDecoder, SpellsPaddedKey, SpellsPrivateKey, padded_value_at, private_value_at};

use crate::private_key::PrivateKey;
use sshkey_ciphers::laws::{compared_ciphers, equal_kdfs};
use sshkey_pairs::laws::equal_pairs;
use sshkey_public::laws::compared_public_keys;

/// Two private keys that are equal have the same cipher and derivation, public keys that mean the
/// same with one comment, and the same pair or ciphertext; two beside well-formed public keys are
/// equal exactly if they have. Checkint and tag are left out.
pub fn compared_private_keys()
    ensures equal { IsEqualityAmong IsBesideKey seen ⟦<PrivateKey as PartialEq>⟧.eq }
    ensures same { EqualMeanSame seen ⟦<PrivateKey as PartialEq>⟧.eq }
{
    compared_ciphers();
    equal_kdfs();
    compared_public_keys();
    equal_pairs();
}

/// The term of a private key spells exactly what PROTOCOL.key lays out, with each way to name its
/// keys and to write a private scalar.
pub fn spelled_private_key()
    ensures { (k : ThePrivateKey) (b : List ℕ) → SpellsPrivateKey k b
        ↔ SpellsWith IsPrivateKey HasPrivateKeyPlaces private_key k b }
{}

/// The same with up to 255 bytes of padding.
pub fn spelled_padded_private_key()
    ensures { (k : ThePrivateKey) (b : List ℕ) → SpellsPaddedKey k b
        ↔ SpellsWith IsPrivateKey HasPaddedPlaces padded_private_key k b }
{}

/// The term of a private key is read exactly where it is spelled, whatever follows.
#[tactic(auto, using(crate::proofs::Lawful::file_grammar))]
pub fn exact_private_key()
    ensures { IsGrammar SpellsPrivateKey (file_format 8).read }
{}

/// A private key is decoded exactly where it may stand before what follows: an encrypted one must
/// be the last.
#[tactic(auto, using(crate::proofs::PrivateKeyGrammars::decoder))]
pub fn decode_private_key()
    ensures { IsDecoder SpellsPrivateKey private_value_at }
{}

/// Two private keys have equal normal forms exactly if they are equal, checkint and tag included.
#[tactic(auto, using(crate::proofs::PrivateKeyLaws::laws))]
pub fn normal_private_keys()
    ensures { DetermineValues IsPrivateKey normal_private_key }
{}

/// The normal form of a private key is read as that key.
#[tactic(auto, using(crate::proofs::PrivateKeyLaws::laws))]
pub fn read_back_private_key()
    ensures { ReadBack IsPrivateKey normal_private_key private_value_at }
{}

/// No private key begins another.
#[tactic(auto, using(crate::proofs::PrivateKeyLaws::plain_prefix))]
pub fn prefix_private_key()
    ensures { IsPrefixFree (IsSpelled IsPrivateKey HasPrivateKeyPlaces) (spelled private_key) }
{}

/// No private key begins another, however long their padding is.
#[tactic(auto, using(crate::proofs::PrivateKeyLaws::padded_prefix))]
pub fn prefix_padded_private_key()
    ensures { IsPrefixFree (IsSpelled IsPrivateKey HasPaddedPlaces) (spelled padded_private_key) }
{}

/// What spells a private key spells the same one if more padding is allowed; so whatever
/// `PrivateKey::from_bytes` reads, `PrivateKey::from_padded_bytes` reads as the same key.
#[tactic(auto, using(crate::proofs::PrivateKeyTrees::plain_padding, crate::proofs::KeyReaders::plain_read))]
pub fn plain_padded_private_key()
    ensures spelled { (k : ThePrivateKey) → (b : List ℕ) → SpellsPrivateKey k b
        → SpellsPaddedKey k b }
    ensures read { (b : List ℕ) → (k : ThePrivateKey) → whole private_value_at b ≡ Ok k
        → whole padded_value_at b ≡ Ok k }
{}
