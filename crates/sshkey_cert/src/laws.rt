//! Laws of certificates: each stands for all values, and makes no call.

ghost use Rattle.std.specs.Prelude.{◌≡◌, ◌≤◌, ◌++◌, ℕ, List, length};
ghost use Rattle.sshkey_model.specs.Certificates.{Certificate as TheCertificate, normal_certificate, SpellsCertificate};
ghost use Rattle.sshkey_model.specs.Keys.{Key, SpellsKey};
ghost use Rattle.sshkey_model.specs.Parts.{flat};
ghost use Rattle.sshkey_base.specs.Comparisons.{EqualMeanSame, IsEqualityAmong, IsEqualityOf};
ghost use Rattle.sshkey_cert.specs.Certificates.{IsOfKeys, IsOrderOfCertificates, content_of};
ghost use Rattle.sshkey_cert.specs.Validity.{refusal_of};

use crate::certificate::{Certificate, CertificateRefusal};
use sshkey_cert_values::laws::compared_signed_fields;
use sshkey_keys::laws::compared_signatures;
pub use sshkey_model::laws::{apart, certificate_fields, prefix_certificate};

/// No spelling of a certificate begins another: what follows it does not matter, and it is that of
/// one certificate.
pub fn one_certificate()
    ensures { (c d : TheCertificate) (a b r q : List ℕ) → SpellsCertificate c a
        → SpellsCertificate d b → a ++ r ≡ b ++ q → (c ≡ d) × (a ≡ b) × (r ≡ q) }
{}

/// No bytes spell a key and a certificate.
pub fn blobs_apart()
    ensures { (k : Key) (c : TheCertificate) (bytes : List ℕ) → SpellsKey k bytes
        → SpellsCertificate c bytes → ⊥ }
{}

/// Two certificates that are equal mean the same and have one comment, and with well-formed keys
/// two are equal exactly if they do. They are ordered by what they sign, field by field from the
/// nonce on, then by the signature, and then by the comment.
pub fn compared_certificates()
    ensures equal { IsEqualityAmong IsOfKeys content_of ⟦<Certificate as PartialEq>⟧.eq }
    ensures same { EqualMeanSame content_of ⟦<Certificate as PartialEq>⟧.eq }
    ensures ordered { IsOrderOfCertificates ⟦<Certificate as Ord>⟧.cmp }
{
    compared_signed_fields();
    compared_signatures();
}

/// Two refusals of a certificate are equal exactly if they are the same.
pub fn equal_certificate_refusals()
    ensures { IsEqualityOf refusal_of ⟦<CertificateRefusal as PartialEq>⟧.eq }
{}

/// No spelling of a certificate is shorter than its normal form, and no other is as short: what is
/// as long as the normal form is the normal form.
pub fn shortest_certificate()
    ensures shortest { (c : TheCertificate) (blob : List ℕ) → SpellsCertificate c blob
        → length (flat (normal_certificate c)) ≤ length blob }
    ensures only { (c : TheCertificate) (blob : List ℕ) → SpellsCertificate c blob
        → length blob ≡ length (flat (normal_certificate c)) → blob ≡ flat (normal_certificate c) }
{}
