//! What holds of all values and all bytes: public functions without code, each with a law as its
//! contract.
//!
//! `readers::exact_*` say that a plain reader takes exactly the spellings of its kind; `prefix_*`
//! that no spelling begins another, and `one_*` that bytes or a text are of one value; `normal_*`
//! that normal forms determine values; `read_back_*` that what is written is read back;
//! `prefixes`, `normal_forms` and `lines` say these three of every kind, in words that are open to a
//! caller's proof; `*_fits` that what fits in one spelling fits in the normal one;
//! `compared_*`, `equal_*` and `ordered_*` what `==` and `cmp` go by. `certificates` has those of
//! what is valid. The others say what their docs say.

ghost use Rattle.std.specs.Prelude.{◌≡◌, ◌↔◌, List, ℕ};
ghost use Rattle.std.specs.Int.{w64};
ghost use Rattle.std.specs.List.{AllByRecursion};
ghost use Rattle.ssh_key.specs.NormalForms.{AreNormalForms};
ghost use Rattle.ssh_key.specs.OpenLaws.{IsOfOneValue, IsReadBack, NoneBegins};
ghost use Rattle.sshkey_model.specs.CertificateNames.{IsCertified, certificate_algorithm, certificate_algorithm_at};
ghost use Rattle.sshkey_model.specs.Certificates.{AreSignedFields, Certificate, CertificateChoices, HasCertificatePlaces, IsCertificate, IsEnd, IsTime, SignedFields, certificate, certificate_at, certificate_type, end_at, normal_certificate, normal_to_be_signed, signed_fields_at, time_at, to_be_signed, type_at, certificate_format, SpellsCertificate};
ghost use Rattle.sshkey_model.specs.Grammar.{IsSpelled, spelled, value_at};
ghost use Rattle.sshkey_model.specs.KeyDerivation.{cipher, kdf, kdf_algorithm};
ghost use Rattle.sshkey_model.specs.KeyPairs.{HasKeyPairPlaces, HasPairPlaces, HasScalarPlaces, IsEcdsaPair, IsKeyPair, IsPairUnder, IsRsaPrivate, IsScalar, Plain, keypair, keypair_at, normal_keypair, pair, pair_at, rsa_private, rsa_private_at, scalar, scalar_at};
ghost use Rattle.sshkey_model.specs.Keys.{HasKeyPlaces, IsBodyUnder, IsKey, Key, body, body_at, key, key_at, normal_key, SpellsKey};
ghost use Rattle.sshkey_model.specs.Lines.{IsCertificateLine, IsKeyLine, key_name, name_of_certificate};
ghost use Rattle.sshkey_model.specs.Mpints.{IsMpint, mpint_at};
ghost use Rattle.sshkey_model.specs.Names.{Algorithm, Curve, Hash, IsAlgorithm, algorithm, algorithm_at, curve, curve_at, hash, hash_at};
ghost use Rattle.sshkey_model.specs.Options.{AreOptions, HasOptionPlaces, normal_options, options, options_at};
ghost use Rattle.sshkey_model.specs.Parts.{Any, flat, number};
ghost use Rattle.sshkey_model.specs.Points.{IsPoint, IsPointOf, point_format};
ghost use Rattle.sshkey_model.specs.PrivateKeys.{HasPrivateKeyPlaces, IsPrivateKey, normal_private_key, private_key};
ghost use Rattle.sshkey_model.specs.Signatures.{IsSignature, signature, signature_at};
ghost use Rattle.sshkey_model.specs.SshSignatures.{HasSshSignaturePlaces, IsSshSignature, normal_ssh_signature, signed_data, ssh_signature};
ghost use Rattle.sshkey_model.specs.Texts.{IsText, string, text_at, texts, texts_at};
ghost use Rattle.sshkey_ciphers.specs.Formats.{cipher_at, kdf_algorithm_at, kdf_at};
ghost use Rattle.sshkey_private.specs.PrivateKeyFormats.{HasPaddedPlaces, padded_private_key, private_value_at};
ghost use Rattle.sshkey_sshsig.specs.SshSignatureFormats.{ssh_signature_value_at};

pub use sshkey_authorized_keys::laws::equal_authorized_keys;
pub use sshkey_authorized_keys::laws::equal_config_opts;
pub use sshkey_base::laws::compared_algorithm_names;
pub use sshkey_base::laws::compared_algorithms;
pub use sshkey_base::laws::compared_curves;
pub use sshkey_base::laws::compared_fields;
pub use sshkey_base::laws::compared_hashes;
pub use sshkey_base::laws::compared_mpints;
pub use sshkey_base::laws::equal_encoding_errors;
pub use sshkey_base::laws::equal_errors;
pub use sshkey_base::laws::one_front;
pub use sshkey_base::laws::read_back;
pub use sshkey_base64::laws::one_armour;
pub use sshkey_cert::laws::blobs_apart;
pub use sshkey_cert::laws::compared_certificates;
pub use sshkey_cert::laws::equal_certificate_refusals;
pub use sshkey_cert::laws::one_certificate;
pub use sshkey_cert::laws::shortest_certificate;
pub use sshkey_cert_values::laws::compared_ends;
pub use sshkey_cert_values::laws::compared_options;
pub use sshkey_cert_values::laws::compared_signed_fields;
pub use sshkey_cert_values::laws::compared_times;
pub use sshkey_cert_values::laws::compared_types;
pub use sshkey_cert_values::laws::exact_to_be_signed;
pub use sshkey_cert_values::laws::one_options;
pub use sshkey_ciphers::laws::compared_ciphers;
pub use sshkey_ciphers::laws::compared_kdf_algorithms;
pub use sshkey_ciphers::laws::equal_kdfs;
pub use sshkey_ciphers::laws::exact_cipher;
pub use sshkey_ciphers::laws::exact_kdf;
pub use sshkey_ciphers::laws::exact_kdf_name;
pub use sshkey_ciphers::laws::normal_kdfs;
pub use sshkey_ciphers::laws::prefix_cipher;
pub use sshkey_ciphers::laws::prefix_kdf;
pub use sshkey_ciphers::laws::prefix_kdf_name;
pub use sshkey_ciphers::laws::read_back_kdf;
pub use sshkey_ciphers::laws::spelled_kdf;
pub use sshkey_entries::laws::one_authorized_key;
pub use sshkey_entries::laws::one_authorized_line;
pub use sshkey_entries::laws::one_end;
pub use sshkey_entries::laws::one_host_line;
pub use sshkey_entries::laws::one_hosts;
pub use sshkey_entries::laws::one_key_options;
pub use sshkey_entries::laws::one_known_host;
pub use sshkey_entries::laws::other_keys_apart;
pub use sshkey_entries::laws::readings_apart;
pub use sshkey_fingerprints::laws::compared_fingerprints;
pub use sshkey_fingerprints::laws::fingerprint_texts;
pub use sshkey_keys::laws::compared_keys;
pub use sshkey_keys::laws::compared_signatures;
pub use sshkey_keys::laws::one_key;
pub use sshkey_keys::laws::one_signature;
pub use sshkey_kinds::laws::compared_dsa_keys;
pub use sshkey_kinds::laws::compared_ecdsa_keys;
pub use sshkey_kinds::laws::compared_ed25519_keys;
pub use sshkey_kinds::laws::compared_opaque_bytes;
pub use sshkey_kinds::laws::compared_opaque_keys;
pub use sshkey_kinds::laws::compared_rsa_keys;
pub use sshkey_kinds::laws::compared_sk_ecdsa_keys;
pub use sshkey_kinds::laws::compared_sk_ed25519_keys;
pub use sshkey_known_hosts::laws::equal_hosts;
pub use sshkey_known_hosts::laws::equal_known_hosts;
pub use sshkey_known_hosts::laws::equal_markers;
pub use sshkey_known_hosts::laws::equal_verdicts;
pub use sshkey_known_hosts::laws::one_verdict;
pub use sshkey_known_hosts::laws::unreadable_lines;
pub use sshkey_krl::laws::grown_krls;
pub use sshkey_krl::laws::joined_krls;
pub use sshkey_krl::laws::one_krl;
pub use sshkey_model::laws::certificate_fields;
pub use sshkey_model::laws::certificate_fits;
pub use sshkey_model::laws::certificates;
pub use sshkey_model::laws::key_fits;
pub use sshkey_model::laws::lines::lines_apart;
pub use sshkey_model::laws::lines::one_certificate_line;
pub use sshkey_model::laws::lines::one_key_line;
pub use sshkey_model::laws::lines::read_back_certificate_line;
pub use sshkey_model::laws::lines::read_back_key_line;
pub use sshkey_model::laws::normal_bodies;
pub use sshkey_model::laws::normal_certificate_names;
pub use sshkey_model::laws::normal_certificates;
pub use sshkey_model::laws::normal_keys;
pub use sshkey_model::laws::normal_mpints;
pub use sshkey_model::laws::normal_names;
pub use sshkey_model::laws::normal_options;
pub use sshkey_model::laws::normal_points;
pub use sshkey_model::laws::normal_signatures;
pub use sshkey_model::laws::normal_texts;
pub use sshkey_model::laws::options_fit;
pub use sshkey_model::laws::prefix_body;
pub use sshkey_model::laws::prefix_certificate;
pub use sshkey_model::laws::prefix_certificate_name;
pub use sshkey_model::laws::prefix_curve;
pub use sshkey_model::laws::prefix_hash;
pub use sshkey_model::laws::prefix_key;
pub use sshkey_model::laws::prefix_mpint;
pub use sshkey_model::laws::prefix_name;
pub use sshkey_model::laws::prefix_options;
pub use sshkey_model::laws::prefix_point;
pub use sshkey_model::laws::prefix_signature;
pub use sshkey_model::laws::prefix_text;
pub use sshkey_model::laws::prefix_texts;
pub use sshkey_model::laws::private::normal_keypairs;
pub use sshkey_model::laws::private::prefix_ecdsa_pair;
pub use sshkey_model::laws::private::prefix_keypair;
pub use sshkey_model::laws::private::prefix_pair;
pub use sshkey_model::laws::private::prefix_rsa_private;
pub use sshkey_model::laws::private::prefix_scalar;
pub use sshkey_model::laws::private::read_back_keypair;
pub use sshkey_model::laws::read_back_certificate;
pub use sshkey_model::laws::read_back_key;
pub use sshkey_model::laws::read_back_options;
pub use sshkey_model::laws::read_back_signature;
pub use sshkey_model::laws::readers;
pub use sshkey_model::laws::signed_fields;
pub use sshkey_model::laws::signed_fields_fit;
pub use sshkey_model::laws::ssh_signature_fits;
pub use sshkey_pair_kinds::laws::equal_dsa_pairs;
pub use sshkey_pair_kinds::laws::equal_dsa_private_keys;
pub use sshkey_pair_kinds::laws::equal_ecdsa_pairs;
pub use sshkey_pair_kinds::laws::equal_ecdsa_private_keys;
pub use sshkey_pair_kinds::laws::equal_ed25519_pairs;
pub use sshkey_pair_kinds::laws::equal_ed25519_private_keys;
pub use sshkey_pair_kinds::laws::equal_rsa_pairs;
pub use sshkey_pair_kinds::laws::equal_rsa_private_keys;
pub use sshkey_pair_kinds::laws::equal_sk_ecdsa_pairs;
pub use sshkey_pair_kinds::laws::equal_sk_ed25519_pairs;
pub use sshkey_pair_kinds::laws::ordered_sk_ecdsa_pairs;
pub use sshkey_pair_kinds::laws::ordered_sk_ed25519_pairs;
pub use sshkey_pairs::laws::equal_opaque_pair_bytes;
pub use sshkey_pairs::laws::equal_opaque_pairs;
pub use sshkey_pairs::laws::equal_opaque_private_keys;
pub use sshkey_pairs::laws::equal_pairs;
pub use sshkey_private::laws::compared_private_keys;
pub use sshkey_private::laws::decode_private_key;
pub use sshkey_private::laws::exact_private_key;
pub use sshkey_private::laws::normal_private_keys;
pub use sshkey_private::laws::plain_padded_private_key;
pub use sshkey_private::laws::prefix_padded_private_key;
pub use sshkey_private::laws::prefix_private_key;
pub use sshkey_private::laws::read_back_private_key;
pub use sshkey_private::laws::spelled_padded_private_key;
pub use sshkey_private::laws::spelled_private_key;
pub use sshkey_public::laws::compared_public_keys;
pub use sshkey_revoked_keys::laws::lines_revoke;
pub use sshkey_revoked_keys::laws::one_revoked_key;
pub use sshkey_sshsig::laws::compared_ssh_signatures;
pub use sshkey_sshsig::laws::digest_parts_fit;
pub use sshkey_sshsig::laws::exact_ssh_signature;
pub use sshkey_sshsig::laws::normal_ssh_signatures;
pub use sshkey_sshsig::laws::one_ssh_signature;
pub use sshkey_sshsig::laws::prefix_ssh_signature;
pub use sshkey_sshsig::laws::read_back_ssh_signature;
pub use sshkey_sshsig::laws::signed_parts_fit;
pub use sshkey_sshsig::laws::spelled_ssh_signature;

/// Of every kind of value: two have equal normal forms exactly if they agree in every field, of
/// private keys also in checkint and tag, and what reads a normal form gives the value that it is
/// of, so that normalising twice is normalising once.
#[tactic(auto, using(sshkey_model::proofs::Lawful::laws, sshkey_ciphers::proofs::Lawful::laws, sshkey_private::proofs::PrivateKeyLaws::laws, crate::proofs::NormalForms::opened))]
pub fn normal_forms()
    ensures mpints { AreNormalForms IsMpint string mpint_at }
    ensures texts { AreNormalForms IsText string text_at }
    ensures text_lists { AreNormalForms (AllByRecursion IsText) texts texts_at }
    ensures points { AreNormalForms IsPointOf (λ x. string x.1) point_format.read }
    ensures curves { AreNormalForms Any curve curve_at }
    ensures hashes { AreNormalForms Any hash hash_at }
    ensures names { AreNormalForms IsAlgorithm algorithm algorithm_at }
    ensures certificate_names { AreNormalForms IsCertified certificate_algorithm
        certificate_algorithm_at }
    ensures bodies { (a : Algorithm) → AreNormalForms (IsBodyUnder a) body (body_at a) }
    ensures keys { AreNormalForms IsKey normal_key (value_at key_at) }
    ensures signatures { AreNormalForms IsSignature signature signature_at }
    ensures ssh_signatures { AreNormalForms IsSshSignature normal_ssh_signature
        ssh_signature_value_at }
    ensures options { AreNormalForms AreOptions normal_options (value_at options_at) }
    ensures types { AreNormalForms Any certificate_type type_at }
    ensures times { AreNormalForms IsTime (number w64) time_at }
    ensures ends { AreNormalForms IsEnd (number w64) end_at }
    ensures signed_fields { AreNormalForms AreSignedFields normal_to_be_signed
        (value_at signed_fields_at) }
    ensures certificates { AreNormalForms IsCertificate normal_certificate
        (value_at certificate_at) }
    ensures ciphers { AreNormalForms Any cipher cipher_at }
    ensures kdf_names { AreNormalForms Any kdf_algorithm kdf_algorithm_at }
    ensures kdfs { AreNormalForms Any kdf kdf_at }
    ensures scalars { (size : ℕ) → AreNormalForms (IsScalar size) (λ s. scalar s Plain)
        (value_at (scalar_at size)) }
    ensures rsa_private_halves { AreNormalForms IsRsaPrivate rsa_private rsa_private_at }
    ensures pairs { (a : Algorithm) → AreNormalForms (IsPairUnder a) (λ k. pair k Plain)
        (value_at (pair_at a)) }
    ensures keypairs { AreNormalForms IsKeyPair normal_keypair (value_at keypair_at) }
    ensures private_keys { AreNormalForms IsPrivateKey normal_private_key private_value_at }
{}

/// Of every kind of value: no spelling begins another.
#[tactic(auto, using(sshkey_model::proofs::Lawful::laws, sshkey_ciphers::proofs::Lawful::laws), unfolding(sshkey_model::specs::Parts::IsPrefixFree))]
pub fn prefixes()
    ensures mpints { NoneBegins IsMpint string }
    ensures texts { NoneBegins IsText string }
    ensures text_lists { NoneBegins (AllByRecursion IsText) texts }
    ensures points { (c : Curve) → NoneBegins (IsPoint c) string }
    ensures curves { NoneBegins Any curve }
    ensures hashes { NoneBegins Any hash }
    ensures names { NoneBegins IsAlgorithm algorithm }
    ensures certificate_names { NoneBegins IsCertified certificate_algorithm }
    ensures bodies { (a : Algorithm) → NoneBegins (IsBodyUnder a) body }
    ensures keys { NoneBegins (IsSpelled IsKey HasKeyPlaces) (spelled key) }
    ensures signatures { NoneBegins IsSignature signature }
    ensures ssh_signatures { NoneBegins (IsSpelled IsSshSignature HasSshSignaturePlaces)
        (spelled ssh_signature) }
    ensures options { NoneBegins (IsSpelled AreOptions HasOptionPlaces) (spelled options) }
    ensures certificates { NoneBegins (IsSpelled IsCertificate HasCertificatePlaces)
        (spelled certificate) }
    ensures ciphers { NoneBegins Any cipher }
    ensures kdf_names { NoneBegins Any kdf_algorithm }
    ensures kdfs { NoneBegins Any kdf }
    ensures scalars { (size : ℕ) → NoneBegins (IsSpelled (IsScalar size) HasScalarPlaces)
        (spelled scalar) }
    ensures rsa_private_halves { NoneBegins IsRsaPrivate rsa_private }
    ensures pairs { (a : Algorithm) → NoneBegins (IsSpelled (IsPairUnder a) HasPairPlaces)
        (spelled pair) }
    ensures ecdsa_pairs { NoneBegins (IsSpelled IsEcdsaPair HasPairPlaces) (spelled pair) }
    ensures keypairs { NoneBegins (IsSpelled IsKeyPair HasKeyPairPlaces) (spelled keypair) }
    ensures private_keys { NoneBegins (IsSpelled IsPrivateKey HasPrivateKeyPlaces)
        (spelled private_key) }
    ensures padded_private_keys { NoneBegins (IsSpelled IsPrivateKey HasPaddedPlaces)
        (spelled padded_private_key) }
{
    prefix_body();
    prefix_certificate();
    prefix_scalar();
    prefix_pair();
    prefix_ecdsa_pair();
    prefix_ssh_signature();
    prefix_private_key();
    prefix_padded_private_key();
}

/// A text is the line of one key or of one certificate at most, and with one comment. What is read
/// of it is written as a line that is read back.
pub fn lines()
    ensures keys { IsOfOneValue key_name SpellsKey }
    ensures certificates { IsOfOneValue name_of_certificate SpellsCertificate }
    ensures apart { (text m n : List ℕ) (k : Key) (c : Certificate) → IsKeyLine text k m
        → IsCertificateLine text c n → ⊥ }
    ensures written_keys { IsReadBack key_name SpellsKey normal_key }
    ensures written_certificates { IsReadBack name_of_certificate SpellsCertificate
        normal_certificate }
{
    one_key_line();
    one_certificate_line();
    lines_apart();
    read_back_key_line();
    read_back_certificate_line();
}

/// No certificate's signed bytes, in any spelling, are what an SSH signature is over.
pub fn apart()
    ensures { (c : SignedFields) (s : CertificateChoices) (namespace reserved : List ℕ) (h : Hash)
        (digest : List ℕ) → AreSignedFields c
        → flat (to_be_signed c s) ≡ flat (signed_data namespace reserved h digest) → ⊥ }
{
    sshkey_model::laws::apart();
}

/// The term of certificates spells exactly what PROTOCOL.certkeys lays out, with each way to spell
/// an empty value and the authority's name.
pub fn spelled_certificate()
    ensures { (c : Certificate) (blob : List ℕ) → certificate_format.Spells c blob
        ↔ SpellsCertificate c blob }
{}
