//! Worked examples of the definitions, on both sides of each edge.

ghost use Rattle.openssh_limits.specs.KeyExamples.{BitLengths, Numbers, OtherKeys, Parts, RsaKeys};
ghost use Rattle.openssh_limits.specs.PaddingExamples.{PaddedSignatures};
ghost use Rattle.openssh_limits.specs.ReadExamples.{Applications, Principals};

/// Numbers of keys.
pub fn numbers()
    ensures { Numbers }
{}

/// Bits of numbers.
pub fn bit_lengths()
    ensures { BitLengths }
{}

/// Sizes of RSA keys.
pub fn rsa_keys()
    ensures { RsaKeys }
{}

/// Numbers of RSA and DSA, each by itself.
pub fn parts()
    ensures { Parts }
{}

/// Keys of the other kinds.
pub fn other_keys()
    ensures { OtherKeys }
{}

/// Principals.
pub fn principals()
    ensures { Principals }
{}

/// Applications.
pub fn applications()
    ensures { Applications }
{}

/// RSA signatures that are shorter than the modulus, as long, and longer.
pub fn padded_signatures()
    ensures { PaddedSignatures }
{}
