//! Examples of fingerprints and lines.

ghost use Rattle.sshkey_model.specs.TextExamples.{Fingerprint, RsaFingerprint, WrittenLines};

/// The fingerprints of an Ed25519 key by both hashes, and their texts in unpadded Base64 (RFC 4648,
/// section 3.2).
pub fn fingerprint()
    ensures { Fingerprint }
{}

/// The fingerprint of an RSA key is that of its normal form.
pub fn rsa_fingerprint()
    ensures { RsaFingerprint }
{}

/// Lines of keys and of a certificate, with a comment and without.
pub fn written_lines()
    ensures { WrittenLines }
{}
