//! Worked examples of revocation files, on both sides of each edge.

ghost use Rattle.sshkey_revoked_keys.specs.LineExamples.{Beginnings, CertificateNames, LaterKeys, Lines, ReadKeys};

/// Lines of a text.
pub fn lines()
    ensures { Lines }
{}

/// Names of certificates.
pub fn certificate_names()
    ensures { CertificateNames }
{}

/// What a list begins with.
pub fn beginnings()
    ensures { Beginnings }
{}

/// What OpenSSH reads of keys and certificates.
pub fn read_keys()
    ensures { ReadKeys }
{}

/// A key of a later kind.
pub fn later_keys()
    ensures { LaterKeys }
{}
