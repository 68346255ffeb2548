//! Why a login is refused.

ghost use Rattle.login_policy.specs.Refusals.{IsRefusalFor};

use sshkey_base::Error;
use sshkey_cert::CertificateRefusal;

/// Why a login is refused.
#[derive(Debug, Drop, thiserror::Error)]
pub enum LoginRefusal {
    /// The bytes are no certificate, or a field of it lets nobody in, for that error. It is never
    /// `Error::Memory`.
    #[error("{0}")]
    Certificate(Error),
    /// The bytes are not the certificate's normal form, and so not those that were signed: an RSA
    /// authority has a name with a hash there, or an option without a value the empty value as a
    /// string.
    #[error("certificate is not in its normal form")]
    NotNormalForm,
    /// sshd(8) accepts no such key, by its kind or its size
    /// (`openssh_limits::openssh_accepts_key`), or no such key as signed the certificate.
    #[error("key is of a kind or size that is not accepted")]
    UnacceptedKey,
    /// The certificate is revoked: its number, its key id, the certified key or the authority's.
    #[error("certificate is revoked")]
    Revoked,
    /// It is by another authority, or the signature, the time or the user's name is wrong.
    #[error("certificate is not valid: {0:?}")]
    Invalid(CertificateRefusal),
    /// The certificate lets its user in from other addresses alone, or the client's is not known. It
    /// is valid otherwise. Not where the caller judges the address.
    #[error("certificate is for other addresses")]
    Elsewhere,
    /// Memory ran out.
    #[error("out of memory")]
    Memory,
}

impl From<Error> for LoginRefusal {
    ghost from_gives = { IsRefusalFor };

    fn from(error: Error) -> LoginRefusal {
        if error.is_memory() {
            return LoginRefusal::Memory;
        }
        LoginRefusal::Certificate(error)
    }
}
