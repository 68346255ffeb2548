//! A key of each kind is a public key.

ghost use Rattle.std.specs.Prelude.{◌≡◌};
ghost use Rattle.sshkey_keys.specs.declared.key_data.KeyData.TheVariants as kinds;

use super::KeyData;
use sshkey_kinds::{
    DsaPublicKey, EcdsaPublicKey, Ed25519PublicKey, OpaquePublicKey, RsaPublicKey,
    SkEcdsaSha2NistP256, SkEd25519,
};

impl From<DsaPublicKey> for KeyData {
    ghost from_gives = { λ key made. made ≡ kinds.Dsa key };

    fn from(key: DsaPublicKey) -> KeyData {
        KeyData::Dsa(key)
    }
}

impl From<EcdsaPublicKey> for KeyData {
    ghost from_gives = { λ key made. made ≡ kinds.Ecdsa key };

    fn from(key: EcdsaPublicKey) -> KeyData {
        KeyData::Ecdsa(key)
    }
}

impl From<Ed25519PublicKey> for KeyData {
    ghost from_gives = { λ key made. made ≡ kinds.Ed25519 key };

    fn from(key: Ed25519PublicKey) -> KeyData {
        KeyData::Ed25519(key)
    }
}

impl From<RsaPublicKey> for KeyData {
    ghost from_gives = { λ key made. made ≡ kinds.Rsa key };

    fn from(key: RsaPublicKey) -> KeyData {
        KeyData::Rsa(key)
    }
}

impl From<SkEcdsaSha2NistP256> for KeyData {
    ghost from_gives = { λ key made. made ≡ kinds.SkEcdsaSha2NistP256 key };

    fn from(key: SkEcdsaSha2NistP256) -> KeyData {
        KeyData::SkEcdsaSha2NistP256(key)
    }
}

impl From<SkEd25519> for KeyData {
    ghost from_gives = { λ key made. made ≡ kinds.SkEd25519 key };

    fn from(key: SkEd25519) -> KeyData {
        KeyData::SkEd25519(key)
    }
}

impl From<OpaquePublicKey> for KeyData {
    ghost from_gives = { λ key made. made ≡ kinds.Other key };

    fn from(key: OpaquePublicKey) -> KeyData {
        KeyData::Other(key)
    }
}
