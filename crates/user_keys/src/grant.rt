//! What a login is bound to, and what it may do.

use login_terms::Terms;
use sshkey_keys::Fingerprint;

/// What a login is bound to, and what it may do.
#[derive(Drop)]
pub struct UserGrant {
    /// The number of the line that lets in, from 1. Empty lines and comments are counted.
    pub line: usize,
    /// What the options of that line say. Of a login by a certificate what both say: the command of
    /// either, what both permit, and a touch or a verified user where one of them asks for it.
    pub terms: Terms,
    /// Which certificate it is, of a login by one.
    pub certified: Option<Certified>,
}

/// A line that lets a certificate in, and the name for which it does.
#[derive(Drop)]
pub struct NamedLine {
    /// The line, and what it says alone.
    pub first: UserGrant,
    /// The one of the certificate's principals that counts.
    pub name: String,
}

/// Which certificate a login is by, for a log.
#[derive(Debug, Drop)]
pub struct Certified {
    /// Its serial number; 0 stands for none.
    pub serial: u64,
    /// Its key id.
    pub key_id: String,
    /// The SHA-256 fingerprint of the key that signed it.
    pub authority: Fingerprint,
}
