//! Whom a server trusts.

use sshkey_keys::Fingerprint;
use sshkey_userauth::Requirements;

/// The text of a file that the server's configuration names. Of a file that is not there it is the
/// empty text.
#[derive(Debug, Clone, Copy)]
pub enum Text<'a> {
    /// What stands in it. Lines need not be UTF-8.
    Read(&'a [u8]),
    /// It is there, and could not be read: no text after it is asked, nor any other source.
    Unreadable,
}

/// Whom a certificate lets in that an authority of `TrustedUserCAKeys` signed (sshd_config(5)).
#[derive(Debug, Clone, Copy)]
pub enum Principals<'a> {
    /// The users that it lists: no `AuthorizedPrincipalsFile` is configured.
    InCertificate,
    /// Those for whom these texts, of `AuthorizedPrincipalsFile`, have one of its principals: of the
    /// first text that has a line for one, the first such line decides.
    Files(&'a [Text<'a>]),
}

/// Whom a server trusts, in the order in which sshd(8) asks (sshd_config(5)). No word has a default.
#[derive(Debug, Clone, Copy)]
pub struct Trusted<'a> {
    /// `AuthorizedKeysFile`: the texts, each in its turn.
    pub authorized_keys: &'a [Text<'a>],
    /// `TrustedUserCAKeys`: the SHA-256 fingerprints of the keys that may sign logins of all users.
    pub authorities: &'a [Fingerprint],
    /// Whom these let in.
    pub principals: Principals<'a>,
    /// `AuthorizedKeysCommand`: what it wrote, if it ended with 0. It comes after the authorities.
    pub command_keys: &'a [Text<'a>],
    /// `RequiredRSASize`: how many bits an RSA key has at least. Below 1,024, as 0, it is 1,024,
    /// which is sshd's own.
    pub least_rsa_bits: u32,
    /// `PubkeyAuthOptions`: what is required of the flags of each security key, whatever the grant
    /// says.
    pub requirements: Requirements,
}
