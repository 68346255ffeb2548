//! Worked examples of ciphers, key pairs and private keys.

ghost use Rattle.sshkey_model.specs.PrivateExamples.{CipherTable, PaddingLengths, FirstBits, WrittenScalars, ReadScalars, ReadShortScalars, RefusedScalars, Ed25519Pairs, RsaPairs, EcdsaPairs, Checkints, WrittenPairs, WrittenKey, PaddingEdges};

/// The name, block and tag of each cipher.
pub fn cipher_table()
    ensures { CipherTable }
{}

/// How many bytes a block wants, on both sides of a multiple.
pub fn padding_lengths()
    ensures { PaddingLengths }
{}

/// A first byte of 7f and one of 80.
pub fn first_bits()
    ensures { FirstBits }
{}

/// Scalars of 32 bytes are written with 00 before them exactly if they begin with 80 or more.
pub fn written_scalars()
    ensures { WrittenScalars }
{}

/// Scalars are read with and without that 00, on both sides of 80.
pub fn read_scalars()
    ensures { ReadScalars }
{}

/// The shortest mpint of a scalar that begins with zeros is read at full width.
pub fn read_short_scalars()
    ensures { ReadShortScalars }
{}

/// Where 32 bytes are wanted: fewer that are no mpint or a negative one, 33 that begin with 01, and
/// 34.
pub fn refused_scalars()
    ensures { RefusedScalars }
{}

/// The public bytes stand twice in a pair of Ed25519.
pub fn ed25519_pairs()
    ensures { Ed25519Pairs }
{}

/// A pair of RSA is read under a name with a hash, and written under the plain one.
pub fn rsa_pairs()
    ensures { RsaPairs }
{}

/// Which curves of a pair of ECDSA are compared before its scalar is read, and which after it.
pub fn ecdsa_pairs()
    ensures { EcdsaPairs }
{}

/// The order of the parts of a pair, for the kinds that no other example shows.
pub fn written_pairs()
    ensures { WrittenPairs }
{}

/// The checkint of each kind of pair.
pub fn checkints()
    ensures { Checkints }
{}

/// The 234 bytes of an Ed25519 key without a comment.
pub fn written_key()
    ensures { WrittenKey }
{}

/// A multiple of 8 has no padding, one byte more has 7.
pub fn padding_edges()
    ensures { PaddingEdges }
{}
