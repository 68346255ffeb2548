//! Examples of public keys.

ghost use Rattle.sshkey_model.specs.KeyExamples.{Ed25519Keys, Ed25519Sizes, RsaNames, MpintKeys, EcdsaKeys, SecurityKeysEcdsa, SecurityKeysEd25519, OpaqueKeys};

/// An Ed25519 key of 51 bytes (RFC 8709, section 4), with a byte more and a byte less.
pub fn ed25519_keys()
    ensures { Ed25519Keys }
{}

/// An Ed25519 key has 32 bytes: 31 are too few, and of 33 one is left.
pub fn ed25519_sizes()
    ensures { Ed25519Sizes }
{}

/// An RSA key of 29 bytes under a name with a hash (RFC 8332, section 3), and its normal form of 24
/// bytes.
pub fn rsa_names()
    ensures { RsaNames }
{}

/// The numbers of RSA and DSA keys (RFC 4253, section 6.6), in their order.
pub fn mpint_keys()
    ensures { MpintKeys }
{}

/// An ECDSA key states its curve (RFC 5656, section 3.1), which its algorithm and its point have
/// too.
pub fn ecdsa_keys()
    ensures { EcdsaKeys }
{}

/// ECDSA keys of security keys (PROTOCOL.u2f), and each fault of theirs.
pub fn security_keys_ecdsa()
    ensures { SecurityKeysEcdsa }
{}

/// Ed25519 keys of security keys (PROTOCOL.u2f), and each fault of theirs.
pub fn security_keys_ed25519()
    ensures { SecurityKeysEd25519 }
{}

/// Keys of a private-use algorithm are opaque strings.
pub fn opaque_keys()
    ensures { OpaqueKeys }
{}
