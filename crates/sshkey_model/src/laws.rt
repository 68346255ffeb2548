//! Laws over the definitions alone: each stands for all values and all bytes, and makes no call.

#![tactic(auto, using(crate::proofs::Lawful::laws))]

pub mod certificates;
pub mod lines;
pub mod private;
pub mod readers;

ghost use Rattle.sshkey_model.specs.Parts.{IsPrefixFree, Any};
ghost use Rattle.sshkey_model.specs.Grammar.{IsSpelled, spelled};
ghost use Rattle.sshkey_model.specs.Texts.{string, IsText, texts};
ghost use Rattle.sshkey_model.specs.Names.{Curve, IsAlgorithm, algorithm, Algorithm, curve, hash};
ghost use Rattle.sshkey_model.specs.CertificateNames.{IsCertified, certificate_algorithm};
ghost use Rattle.sshkey_model.specs.Mpints.{IsMpint};
ghost use Rattle.sshkey_model.specs.Points.{IsPoint};
ghost use Rattle.sshkey_model.specs.Keys.{IsBodyUnder, body, IsKey, HasKeyPlaces, key, normal_key, Plain, key_at};
ghost use Rattle.sshkey_model.specs.Signatures.{IsSignature, signature, signature_at};
ghost use Rattle.sshkey_model.specs.Options.{AreOptions, HasOptionPlaces, options, normal_options, plain_nestings, options_at};
ghost use Rattle.sshkey_model.specs.Certificates.{IsCertificate, HasCertificatePlaces, certificate, normal_certificate, plain_choices, certificate_at, AreSignedFields, HaveSignedPlaces, to_be_signed, normal_to_be_signed};
ghost use Rattle.sshkey_model.specs.SshSignatures.{IsSshSignature, HasSshSignaturePlaces, ssh_signature, normal_ssh_signature};
ghost use Rattle.sshkey_model.specs.Laws.{DetermineValues, ReadBackPlain, ReadBack, DetermineFields, AreApart, DetermineSignedData, NormalFits};
ghost use Rattle.std.specs.List.{AllByRecursion};

/// No mpint string begins another.
pub fn prefix_mpint()
    ensures { IsPrefixFree IsMpint string }
{}

/// No text string begins another.
pub fn prefix_text()
    ensures { IsPrefixFree IsText string }
{}

/// No list of texts begins another.
pub fn prefix_texts()
    ensures { IsPrefixFree (AllByRecursion IsText) texts }
{}

/// No name of a curve begins another.
pub fn prefix_curve()
    ensures { IsPrefixFree Any curve }
{}

/// No name of a hash begins another.
pub fn prefix_hash()
    ensures { IsPrefixFree Any hash }
{}

/// No point string in a box begins another of its curve.
pub fn prefix_point()
    ensures { (c : Curve) → IsPrefixFree (IsPoint c) string }
{}

/// No name of an algorithm begins another.
pub fn prefix_name()
    ensures { IsPrefixFree IsAlgorithm algorithm }
{}

/// No name of an algorithm in a certificate begins another.
pub fn prefix_certificate_name()
    ensures { IsPrefixFree IsCertified certificate_algorithm }
{}

/// Under one algorithm no key body begins another.
pub fn prefix_body()
    ensures { (a : Algorithm) → IsPrefixFree (IsBodyUnder a) body }
{}

/// No public key begins another.
pub fn prefix_key()
    ensures { IsPrefixFree (IsSpelled IsKey HasKeyPlaces) (spelled key) }
{}

/// No signature begins another.
pub fn prefix_signature()
    ensures { IsPrefixFree IsSignature signature }
{}

/// No options begin others.
pub fn prefix_options()
    ensures { IsPrefixFree (IsSpelled AreOptions HasOptionPlaces) (spelled options) }
{}

/// No certificate begins another.
pub fn prefix_certificate()
    ensures { IsPrefixFree (IsSpelled IsCertificate HasCertificatePlaces) (spelled certificate) }
{}

/// Two mpints are written alike exactly if they are equal.
pub fn normal_mpints()
    ensures { DetermineValues IsMpint string }
{}

/// Two texts are written alike exactly if they are equal.
pub fn normal_texts()
    ensures { DetermineValues IsText string }
{}

/// Two points of a curve are written alike exactly if they are equal.
pub fn normal_points()
    ensures { (c : Curve) → DetermineValues (IsPoint c) string }
{}

/// Two algorithms are named alike exactly if they are equal.
pub fn normal_names()
    ensures { DetermineValues IsAlgorithm algorithm }
{}

/// Two algorithms of certified keys are named alike in certificates exactly if they are equal.
pub fn normal_certificate_names()
    ensures { DetermineValues IsCertified certificate_algorithm }
{}

/// Under one algorithm two key bodies are written alike exactly if they are equal.
pub fn normal_bodies()
    ensures { (a : Algorithm) → DetermineValues (IsBodyUnder a) body }
{}

/// Two public keys have equal normal forms exactly if they are equal.
pub fn normal_keys()
    ensures { DetermineValues IsKey normal_key }
{}

/// Two signatures are written alike exactly if they are equal.
pub fn normal_signatures()
    ensures { DetermineValues IsSignature signature }
{}

/// Two lists of options have equal normal forms exactly if they are equal.
pub fn normal_options()
    ensures { DetermineValues AreOptions normal_options }
{}

/// Two certificates have equal normal forms exactly if they are equal.
pub fn normal_certificates()
    ensures { DetermineValues IsCertificate normal_certificate }
{}

/// The normal form of a public key is read as that key with the plain name: normalising twice is
/// normalising once.
pub fn read_back_key()
    ensures { ReadBackPlain IsKey key (λ _. Plain) key_at }
{}

/// A written signature is read as that signature.
pub fn read_back_signature()
    ensures { ReadBack IsSignature signature signature_at }
{}

/// The normal form of options is read as these options, all bare.
pub fn read_back_options()
    ensures { ReadBackPlain AreOptions options plain_nestings options_at }
{}

/// The normal form of a certificate is read as that certificate with plain choices.
pub fn read_back_certificate()
    ensures { ReadBackPlain IsCertificate certificate
        (λ c. plain_choices c.signed) certificate_at }
{}

/// Where a public key fits in one of its spellings, its normal form fits.
pub fn key_fits()
    ensures { NormalFits IsKey HasKeyPlaces key normal_key }
{}

/// Where options fit in one of their spellings, their normal form fits.
pub fn options_fit()
    ensures { NormalFits AreOptions HasOptionPlaces options normal_options }
{}

/// Where a certificate fits in one of its spellings, its normal form fits.
pub fn certificate_fits()
    ensures { NormalFits IsCertificate HasCertificatePlaces certificate normal_certificate }
{}

/// Where what a certificate's signature is over fits in one of its spellings, its normal form fits.
pub fn signed_fields_fit()
    ensures { NormalFits AreSignedFields HaveSignedPlaces to_be_signed normal_to_be_signed }
{}

/// Where an SSH signature fits in one of its spellings, its normal form fits.
pub fn ssh_signature_fits()
    ensures { NormalFits IsSshSignature HasSshSignaturePlaces ssh_signature normal_ssh_signature }
{}

/// The signed bytes of a certificate, in any spelling, determine every field but the signature.
pub fn certificate_fields()
    ensures { DetermineFields }
{}

/// No certificate's signed bytes, in any spelling, are what an SSH signature is over.
pub fn apart()
    ensures { AreApart }
{}

/// What an SSH signature is over determines namespace, reserved bytes, hash and digest.
pub fn signed_fields()
    ensures { DetermineSignedData }
{}
