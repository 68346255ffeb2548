//! By what a login is let in, and what it is bound to.

use sshkey_keys::Fingerprint;
use user_keys::UserGrant;

/// By what a login is let in. A text has its number among its like, from 0; its line stands in the
/// grant.
#[derive(Debug, Clone, Copy, PartialEq, Eq)]
pub enum Source {
    /// A text of `AuthorizedKeysFile`.
    AuthorizedKeys(usize),
    /// An authority of `TrustedUserCAKeys`, by a certificate that lists the user.
    Authority,
    /// The same by a text of `AuthorizedPrincipalsFile`.
    Principals(usize),
    /// What `AuthorizedKeysCommand` wrote.
    Command(usize),
}

/// What a login is granted.
#[derive(Drop)]
pub struct PublickeyGrant {
    /// By what it is let in.
    pub source: Source,
    /// What it is bound to and what it may do. The line is 0 where an authority lets in by the
    /// certificate alone.
    pub user: UserGrant,
    /// The SHA-256 fingerprint of the plain key, also of one that is in a certificate. A server that
    /// wants two methods in a row refuses a key that has been taken before.
    pub key: Fingerprint,
}
