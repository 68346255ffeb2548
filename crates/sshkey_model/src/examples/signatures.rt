//! Examples of signatures.

ghost use Rattle.sshkey_model.specs.SignatureExamples.{SecurityKeySignatures, PlainSignatures, SignatureSizes, SecurityKeySizes, ComponentSizes, Components, JudgedLast};

/// Signatures of security keys (PROTOCOL.u2f), read and written with flags and counter after the
/// string.
pub fn security_key_signatures()
    ensures { SecurityKeySignatures }
{}

/// Signatures of Ed25519 and RSA keys (RFC 8709, section 6; RFC 8332, section 3); none under
/// `ssh-rsa`.
pub fn plain_signatures()
    ensures { PlainSignatures }
{}

/// The sizes of signatures: 40 bytes of DSA, 64 of Ed25519, any of RSA with a hash, at least 1 of a
/// private-use algorithm.
pub fn signature_sizes()
    ensures { SignatureSizes }
{}

/// A security key's Ed25519 signature has 64 bytes in the string and 5 after it.
pub fn security_key_sizes()
    ensures { SecurityKeySizes }
{}

/// The numbers of an ECDSA signature (RFC 5656, section 3.1.2) have at most as many bytes as a
/// coordinate.
pub fn component_sizes()
    ensures { ComponentSizes }
{}

/// An ECDSA signature is two positive mpints and nothing more.
pub fn components()
    ensures { Components }
{}

/// The string of a security key's signature is judged when its trailer was read.
pub fn judged_last()
    ensures { JudgedLast }
{}
