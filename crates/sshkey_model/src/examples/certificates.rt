//! Examples of options and certificates.

ghost use Rattle.sshkey_model.specs.OptionExamples.{NameOrder, EmptyValues, TextValues, RisingNames};
ghost use Rattle.sshkey_model.specs.CertificateExamples.{Times, CertificateTypes, OpensshCertificate, OtherFields, CertificateFaults, SignedBytes, SignatureKeyNames, EndlessCertificate};
ghost use Rattle.sshkey_model.specs.ValidityExamples.{Window, Refused, AuthoritySignature, AuthorityFingerprint, Endless, OtherHash};

/// The order of option names: by bytes, and a beginning first.
pub fn name_order()
    ensures { NameOrder }
{}

/// An option's empty value in its two spellings (PROTOCOL.certkeys), and the one that is written.
pub fn empty_values()
    ensures { EmptyValues }
{}

/// An option's value is one text and nothing more.
pub fn text_values()
    ensures { TextValues }
{}

/// Equal option names and falling ones are rejected.
pub fn rising_names()
    ensures { RisingNames }
{}

/// 2^63 - 1 is the last time that is read, and 2^64 - 1 stands for no end.
pub fn times()
    ensures { Times }
{}

/// Certificates of users and of hosts, and no other type.
pub fn certificate_types()
    ensures { CertificateTypes }
{}

/// A certificate of 336 bytes that OpenSSH made, read and written back.
pub fn openssh_certificate()
    ensures { OpensshCertificate }
{}

/// A certificate without an end, as ssh-keygen writes it where none was given.
pub fn endless_certificate()
    ensures { EndlessCertificate }
{}

/// A host's certificate, principals and reserved bytes, read and written back.
pub fn other_fields()
    ensures { OtherFields }
{}

/// Each fault of a certificate, field by field.
pub fn certificate_faults()
    ensures { CertificateFaults }
{}

/// The 180 bytes that a small certificate's signature is over.
pub fn signed_bytes()
    ensures { SignedBytes }
{}

/// A certificate of 183 bytes whose signature key has a name with a hash: 153 bytes are signed, and
/// 178 are written.
pub fn signature_key_names()
    ensures { SignatureKeyNames }
{}

/// A certificate from 10 to 20 is valid at 10 and 19, and neither at 9 nor at 20.
pub fn window()
    ensures { Window }
{}

/// A certificate without an end is valid up to 2^63 - 1.
pub fn endless()
    ensures { Endless }
{}

/// The fingerprint that is asked for is the SHA-256 one.
pub fn other_hash()
    ensures { OtherHash }
{}

/// A certificate is valid for none but its authority's fingerprint, and if the verifier says yes.
pub fn refused()
    ensures { Refused }
{}

/// An authority with an RSA key under a name with a hash signs the normal signed bytes.
pub fn authority_signature()
    ensures { AuthoritySignature }
{}

/// The fingerprint of an authority is that of its key's normal form.
pub fn authority_fingerprint()
    ensures { AuthorityFingerprint }
{}
