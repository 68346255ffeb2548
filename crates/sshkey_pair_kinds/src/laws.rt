//! Laws of spelling, equality and order. They make no call: each is a fact about the definitions.

ghost use Rattle.sshkey_base.specs.Comparisons.{IsEqualityOf, IsOrderByParts};
ghost use Rattle.sshkey_pair_kinds.specs.Pairs.{dsa_pair_of, ecdsa_pair_of, ed25519_pair_of, rsa_pair_of, dsa_private_of, ecdsa_private_of, ed25519_private_of, rsa_private_of};
ghost use Rattle.sshkey_pair_kinds.specs.SkKeypairs.{sk_ecdsa_pair_of, sk_ecdsa_pair_parts, sk_ed25519_pair_of, sk_ed25519_pair_parts};

use crate::dsa::{DsaKeypair, DsaPrivateKey};
use crate::ecdsa::{EcdsaKeypair, EcdsaPrivateKey};
use crate::ed25519::{Ed25519Keypair, Ed25519PrivateKey};
use crate::rsa::{RsaKeypair, RsaPrivateKey};
use crate::sk_keypair::{SkEcdsaSha2NistP256, SkEd25519};
use sshkey_kinds::laws::{compared_sk_ecdsa_keys, compared_sk_ed25519_keys};
pub use sshkey_model::laws::private::{
    prefix_ecdsa_pair, prefix_pair, prefix_rsa_private, prefix_scalar,
};

/// Two private numbers of DSA keys are equal exactly if they are the same.
pub fn equal_dsa_private_keys()
    ensures { IsEqualityOf dsa_private_of ⟦<DsaPrivateKey as PartialEq>⟧.eq }
{}

/// Two private scalars of one width are equal exactly if they are the same.
pub fn equal_ecdsa_private_keys<const SIZE: usize>()
    ensures { IsEqualityOf ecdsa_private_of ⟦<EcdsaPrivateKey<SIZE> as PartialEq>⟧.eq }
{}

/// Two private keys of Ed25519 are equal exactly if their bytes are.
pub fn equal_ed25519_private_keys()
    ensures { IsEqualityOf ed25519_private_of ⟦<Ed25519PrivateKey as PartialEq>⟧.eq }
{}

/// Two private halves of RSA keys are equal exactly if their four numbers are.
pub fn equal_rsa_private_keys()
    ensures { IsEqualityOf rsa_private_of ⟦<RsaPrivateKey as PartialEq>⟧.eq }
{}

/// Two DSA pairs are equal exactly if they mean the same.
pub fn equal_dsa_pairs()
    ensures { IsEqualityOf dsa_pair_of ⟦<DsaKeypair as PartialEq>⟧.eq }
{}

/// Two ECDSA pairs are equal exactly if they mean the same.
pub fn equal_ecdsa_pairs()
    ensures { IsEqualityOf ecdsa_pair_of ⟦<EcdsaKeypair as PartialEq>⟧.eq }
{}

/// Two Ed25519 pairs are equal exactly if they mean the same.
pub fn equal_ed25519_pairs()
    ensures { IsEqualityOf ed25519_pair_of ⟦<Ed25519Keypair as PartialEq>⟧.eq }
{}

/// Two RSA pairs are equal exactly if they mean the same, the inverse of q too.
pub fn equal_rsa_pairs()
    ensures { IsEqualityOf rsa_pair_of ⟦<RsaKeypair as PartialEq>⟧.eq }
{
    equal_rsa_private_keys();
}

/// Two P-256 pairs of security keys are equal exactly if they mean the same.
pub fn equal_sk_ecdsa_pairs()
    ensures { IsEqualityOf sk_ecdsa_pair_of ⟦<SkEcdsaSha2NistP256 as PartialEq>⟧.eq }
{}

/// Two Ed25519 pairs of security keys are equal exactly if they mean the same.
pub fn equal_sk_ed25519_pairs()
    ensures { IsEqualityOf sk_ed25519_pair_of ⟦<SkEd25519 as PartialEq>⟧.eq }
{}

/// P-256 pairs of security keys are ordered by the point and the application of the public key, and
/// then by the flags, the key handle and the reserved bytes.
pub fn ordered_sk_ecdsa_pairs()
    ensures { IsOrderByParts sk_ecdsa_pair_parts ⟦<SkEcdsaSha2NistP256 as Ord>⟧.cmp }
{
    compared_sk_ecdsa_keys();
}

/// Ed25519 pairs of security keys are ordered by the bytes and the application of the public key,
/// and then by the flags, the key handle and the reserved bytes.
pub fn ordered_sk_ed25519_pairs()
    ensures { IsOrderByParts sk_ed25519_pair_parts ⟦<SkEd25519 as Ord>⟧.cmp }
{
    compared_sk_ed25519_keys();
}
