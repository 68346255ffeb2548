//! Laws of spelling and equality. They make no call: each is a fact about the definitions.

ghost use Rattle.sshkey_base.specs.Comparisons.{IsEqualityOf};
ghost use Rattle.sshkey_pairs.specs.Keypairs.{pair_fields, nameless_pair_of, opaque_pair_fields, opaque_private_of};

use crate::keypair_data::KeypairData;
use crate::opaque::{OpaqueKeypair, OpaqueKeypairBytes, OpaquePrivateKeyBytes};
pub use sshkey_model::laws::private::{prefix_keypair, prefix_pair};
use sshkey_pair_kinds::laws::{
    equal_dsa_pairs, equal_ecdsa_pairs, equal_ed25519_pairs, equal_rsa_pairs, equal_sk_ecdsa_pairs,
    equal_sk_ed25519_pairs,
};

/// The private bytes of two pairs of an unknown format are equal exactly if they are the same.
pub fn equal_opaque_private_keys()
    ensures { IsEqualityOf opaque_private_of ⟦<OpaquePrivateKeyBytes as PartialEq>⟧.eq }
{}

/// Two pairs of an unknown format, without their names, are equal exactly if their public and their
/// private bytes are.
pub fn equal_opaque_pair_bytes()
    ensures { IsEqualityOf nameless_pair_of ⟦<OpaqueKeypairBytes as PartialEq>⟧.eq }
{}

/// Two pairs under private-use names are equal exactly if their algorithms and their bytes are.
pub fn equal_opaque_pairs()
    ensures { IsEqualityOf opaque_pair_fields ⟦<OpaqueKeypair as PartialEq>⟧.eq }
{}

/// Two pairs of any kind are equal exactly if they mean the same under one algorithm, two that are
/// encrypted exactly if their ciphertexts are, and no pair is equal to an encrypted one.
pub fn equal_pairs()
    ensures { IsEqualityOf pair_fields ⟦<KeypairData as PartialEq>⟧.eq }
{
    equal_dsa_pairs();
    equal_ecdsa_pairs();
    equal_ed25519_pairs();
    equal_rsa_pairs();
    equal_sk_ecdsa_pairs();
    equal_sk_ed25519_pairs();
    equal_opaque_pairs();
}
