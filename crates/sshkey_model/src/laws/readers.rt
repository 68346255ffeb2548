//! Laws of the plain readers: each takes exactly the spellings of its kind from the front of any
//! list of bytes, and where a value may be spelled in several ways, it also gives the choices that
//! were made.

ghost use Rattle.std.specs.Prelude.{◌≡◌, ℕ, List};
ghost use Rattle.sshkey_model.specs.Parts.{Any, number};
ghost use Rattle.sshkey_model.specs.Grammar.{Spells, SpellsAs, IsGrammar, value_at};
ghost use Rattle.sshkey_model.specs.Texts.{string, IsText, text_at, texts, texts_at};
ghost use Rattle.sshkey_model.specs.Names.{IsAlgorithm, algorithm, algorithm_at, Algorithm, curve, curve_at, hash, hash_at};
ghost use Rattle.sshkey_model.specs.CertificateNames.{IsCertified, certificate_algorithm, certificate_algorithm_at};
ghost use Rattle.sshkey_model.specs.Mpints.{IsMpint, mpint_at};
ghost use Rattle.sshkey_model.specs.Keys.{IsBodyUnder, body, body_at, IsKey, HasKeyPlaces, key, key_at, IsEcdsa, any_ecdsa_format};
ghost use Rattle.sshkey_model.specs.Signatures.{IsSignature, signature, signature_at};
ghost use Rattle.sshkey_model.specs.Options.{AreOptions, HasOptionPlaces, options, options_at};
ghost use Rattle.sshkey_model.specs.Certificates.{IsCertificate, HasCertificatePlaces, certificate, certificate_at, certificate_type, type_at, IsTime, time_at, IsEnd, end_at, AreSignedFields, HaveSignedPlaces, to_be_signed, signed_fields_at};
ghost use Rattle.sshkey_model.specs.KeyPairs.{IsScalar, HasScalarPlaces, scalar, scalar_at, IsPairUnder, HasPairPlaces, pair, pair_at, IsKeyPair, HasKeyPairPlaces, keypair, keypair_at, IsRsaPrivate, rsa_private, rsa_private_at, IsEcdsaPair, any_ecdsa_pair_at, any_ecdsa_pair_format, pair_kind_format};
ghost use Rattle.std.specs.List.{AllByRecursion};
ghost use Rattle.std.specs.Int.{w64};
ghost use Rattle.sshkey_model.specs.Points.{IsPointOf, point_format};

/// Texts are read exactly where they are spelled.
pub fn exact_text()
    ensures { IsGrammar (Spells IsText string) text_at }
{}

/// Lists of texts are read exactly where they are spelled.
pub fn exact_texts()
    ensures { IsGrammar (Spells (AllByRecursion IsText) texts) texts_at }
{}

/// Names of curves are read exactly where they are spelled.
pub fn exact_curve()
    ensures { IsGrammar (Spells Any curve) curve_at }
{}

/// Names of hashes are read exactly where they are spelled.
pub fn exact_hash()
    ensures { IsGrammar (Spells Any hash) hash_at }
{}

/// Mpints are read exactly where they are spelled.
pub fn exact_mpint()
    ensures { IsGrammar (Spells IsMpint string) mpint_at }
{}

/// Names of algorithms are read exactly where they are spelled.
pub fn exact_name()
    ensures { IsGrammar (Spells IsAlgorithm algorithm) algorithm_at }
{}

/// Names of algorithms in certificates are read exactly where they are spelled.
pub fn exact_certificate_name()
    ensures { IsGrammar (Spells IsCertified certificate_algorithm) certificate_algorithm_at }
{}

/// Points are read exactly where they are spelled, each with its curve.
pub fn exact_point()
    ensures { IsGrammar (Spells IsPointOf (λ x. string x.1)) point_format.read }
{}

/// Under each algorithm key bodies are read exactly where they are spelled.
pub fn exact_body()
    ensures { (a : Algorithm) → IsGrammar (Spells (IsBodyUnder a) body) (body_at a) }
{}

/// ECDSA keys on any curve are read exactly where they are spelled.
pub fn exact_ecdsa()
    ensures { IsGrammar (Spells IsEcdsa body) any_ecdsa_format.read }
{}

/// Public keys are read exactly where they are spelled, under one of their names.
pub fn exact_key()
    ensures { IsGrammar (SpellsAs IsKey HasKeyPlaces key) key_at }
{}

/// Signatures are read exactly where they are spelled.
pub fn exact_signature()
    ensures { IsGrammar (Spells IsSignature signature) signature_at }
{}

/// Options are read exactly where they are spelled, empty values in either way.
pub fn exact_options()
    ensures { IsGrammar (SpellsAs AreOptions HasOptionPlaces options) options_at }
{}

/// Types of certificates are read exactly where they are spelled.
pub fn exact_certificate_type()
    ensures { IsGrammar (Spells Any certificate_type) type_at }
{}

/// Times are read exactly where they are spelled: up to 2^63 - 1.
pub fn exact_time()
    ensures { IsGrammar (Spells IsTime (number w64)) time_at }
{}

/// Ends of certificates are read exactly where they are spelled: a time, or 2^64 - 1.
pub fn exact_end()
    ensures { IsGrammar (Spells IsEnd (number w64)) end_at }
{}

/// What the signature of a certificate is over is read exactly where it is spelled.
pub fn exact_signed_fields()
    ensures { IsGrammar (SpellsAs AreSignedFields HaveSignedPlaces to_be_signed) signed_fields_at }
{}

/// Certificates are read exactly where they are spelled.
pub fn exact_certificate()
    ensures { IsGrammar (SpellsAs IsCertificate HasCertificatePlaces certificate) certificate_at }
{}

/// Private scalars of a size are read exactly where they are spelled, with a leading 00 and
/// without, and as the shortest mpint.
pub fn exact_scalar()
    ensures { (size : ℕ) → IsGrammar (SpellsAs (IsScalar size) HasScalarPlaces scalar)
        (scalar_at size) }
{}

/// Private halves of RSA pairs are read exactly where they are spelled.
pub fn exact_rsa_private()
    ensures { IsGrammar (Spells IsRsaPrivate rsa_private) rsa_private_at }
{}

/// Pairs of ECDSA on any curve are read exactly where they are spelled.
pub fn exact_ecdsa_pair()
    ensures { IsGrammar (SpellsAs IsEcdsaPair HasPairPlaces pair) any_ecdsa_pair_at }
{}

/// Under each algorithm key pairs are read exactly where they are spelled.
pub fn exact_pair()
    ensures { (a : Algorithm) → IsGrammar (SpellsAs (IsPairUnder a) HasPairPlaces pair)
        (pair_at a) }
{}

/// A pair is read alike with the choices of its spelling and without.
pub fn pair_values()
    ensures ecdsa { (b : List ℕ) → value_at any_ecdsa_pair_at b ≡ any_ecdsa_pair_format.read b }
    ensures under { (a : Algorithm) (b : List ℕ) → value_at (pair_at a) b
        ≡ (pair_kind_format a).read b }
{}

/// Key pairs with their names are read exactly where they are spelled.
pub fn exact_keypair()
    ensures { IsGrammar (SpellsAs IsKeyPair HasKeyPairPlaces keypair) keypair_at }
{}
