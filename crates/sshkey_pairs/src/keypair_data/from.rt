//! A pair of each kind is a pair of any kind.

ghost use Rattle.std.specs.Prelude.{◌≡◌};
ghost use Rattle.sshkey_pairs.specs.declared.keypair_data.KeypairData.TheVariants as kinds;

use super::KeypairData;
use crate::opaque::OpaqueKeypair;
use sshkey_pair_kinds::{
    DsaKeypair, EcdsaKeypair, Ed25519Keypair, RsaKeypair, SkEcdsaSha2NistP256, SkEd25519,
};

/// That DSA pair. Does not allocate.
impl From<DsaKeypair> for KeypairData {
    ghost from_gives = { λ pair made. made ≡ kinds.Dsa pair };

    fn from(pair: DsaKeypair) -> KeypairData {
        KeypairData::Dsa(pair)
    }
}

/// That ECDSA pair. Does not allocate.
impl From<EcdsaKeypair> for KeypairData {
    ghost from_gives = { λ pair made. made ≡ kinds.Ecdsa pair };

    fn from(pair: EcdsaKeypair) -> KeypairData {
        KeypairData::Ecdsa(pair)
    }
}

/// That Ed25519 pair. Does not allocate.
impl From<Ed25519Keypair> for KeypairData {
    ghost from_gives = { λ pair made. made ≡ kinds.Ed25519 pair };

    fn from(pair: Ed25519Keypair) -> KeypairData {
        KeypairData::Ed25519(pair)
    }
}

/// That RSA pair. Does not allocate.
impl From<RsaKeypair> for KeypairData {
    ghost from_gives = { λ pair made. made ≡ kinds.Rsa pair };

    fn from(pair: RsaKeypair) -> KeypairData {
        KeypairData::Rsa(pair)
    }
}

/// That P-256 pair of a security key. Does not allocate.
impl From<SkEcdsaSha2NistP256> for KeypairData {
    ghost from_gives = { λ pair made. made ≡ kinds.SkEcdsaSha2NistP256 pair };

    fn from(pair: SkEcdsaSha2NistP256) -> KeypairData {
        KeypairData::SkEcdsaSha2NistP256(pair)
    }
}

/// That Ed25519 pair of a security key. Does not allocate.
impl From<SkEd25519> for KeypairData {
    ghost from_gives = { λ pair made. made ≡ kinds.SkEd25519 pair };

    fn from(pair: SkEd25519) -> KeypairData {
        KeypairData::SkEd25519(pair)
    }
}

/// That pair under a private-use name. Does not allocate.
impl From<OpaqueKeypair> for KeypairData {
    ghost from_gives = { λ pair made. made ≡ kinds.Other pair };

    fn from(pair: OpaqueKeypair) -> KeypairData {
        KeypairData::Other(pair)
    }
}
