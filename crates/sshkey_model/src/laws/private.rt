//! Laws of key pairs: each stands for all values and all bytes, and makes no call.

ghost use Rattle.std.specs.Prelude.{ℕ};
ghost use Rattle.sshkey_model.specs.Parts.{IsPrefixFree};
ghost use Rattle.sshkey_model.specs.Grammar.{IsSpelled, spelled};
ghost use Rattle.sshkey_model.specs.Names.{Algorithm};
ghost use Rattle.sshkey_model.specs.KeyPairs.{IsScalar, HasScalarPlaces, scalar, IsRsaPrivate, rsa_private, IsEcdsaPair, IsPairUnder, HasPairPlaces, pair, IsKeyPair, HasKeyPairPlaces, keypair, normal_keypair, plain_pair, keypair_at};
ghost use Rattle.sshkey_model.specs.Laws.{DetermineValues, ReadBackPlain};

/// No private scalar of a size begins another.
pub fn prefix_scalar()
    ensures { (size : ℕ) → IsPrefixFree (IsSpelled (IsScalar size) HasScalarPlaces)
        (spelled scalar) }
{}

/// No private half of an RSA pair begins another.
pub fn prefix_rsa_private()
    ensures { IsPrefixFree IsRsaPrivate rsa_private }
{}

/// Under one algorithm no key pair begins another.
pub fn prefix_pair()
    ensures { (a : Algorithm) → IsPrefixFree (IsSpelled (IsPairUnder a) HasPairPlaces)
        (spelled pair) }
{}

/// No pair of ECDSA begins another, whatever their curves.
pub fn prefix_ecdsa_pair()
    ensures { IsPrefixFree (IsSpelled IsEcdsaPair HasPairPlaces) (spelled pair) }
{}

/// No key pair with its name begins another.
pub fn prefix_keypair()
    ensures { IsPrefixFree (IsSpelled IsKeyPair HasKeyPairPlaces) (spelled keypair) }
{}

/// Two key pairs have equal normal forms exactly if they are equal.
pub fn normal_keypairs()
    ensures { DetermineValues IsKeyPair normal_keypair }
{}

/// The normal form of a key pair is read as that pair with plain choices: normalising twice is
/// normalising once.
pub fn read_back_keypair()
    ensures { ReadBackPlain IsKeyPair keypair (λ _. plain_pair) keypair_at }
{}
