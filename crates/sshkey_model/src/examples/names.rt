//! Examples of names.

ghost use Rattle.sshkey_model.specs.NameExamples.{CurveNames, HashNames, AlgorithmNames, OwnNames, NameReading, OwnCertificateNames, TakenCertificateName};

/// The three curves have the names of RFC 5656, section 10.1; any other name is rejected.
pub fn curve_names()
    ensures { CurveNames }
{}

/// The two hashes have the names of PROTOCOL.sshsig; any other name is rejected.
pub fn hash_names()
    ensures { HashNames }
{}

/// Each algorithm is written and read by its fixed name, and by another in certificates; RSA has
/// one there, with a hash and without.
pub fn algorithm_names()
    ensures { AlgorithmNames }
{}

/// Private-use names (RFC 4251, section 6): 64 bytes and 65, ASCII and not, no at sign, one and
/// two.
pub fn own_names()
    ensures { OwnNames }
{}

/// Names as they are read from strings.
pub fn name_reading()
    ensures { NameReading }
{}

/// Private-use names in certificates: 73 bytes and 74, with the suffix and without.
pub fn own_certificate_names()
    ensures { OwnCertificateNames }
{}

/// The certificate name of a fixed algorithm is no private-use name.
pub fn taken_certificate_name()
    ensures { TakenCertificateName }
{}
