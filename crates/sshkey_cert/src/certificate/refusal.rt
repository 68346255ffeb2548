//! What is wrong with a certificate.

ghost use Rattle.std.specs.Prelude.{◌≡◌, None, option_map};
ghost use Rattle.sshkey_model.specs.Refusals.{UnlistedPrincipal, or_else, unless};
ghost use Rattle.sshkey_cert.specs.Validity.{ReportsRefusal, refusal_error, refusal_of};

use sshkey_base::certificate::Field;
use sshkey_base::{Error, Result};

/// What is wrong with a certificate that is not valid: the first of these, in this order.
///
/// It tells more than the error of `validate_at`, so that a log can tell an expired certificate
/// from a forged one. Whoever shows a certificate need not learn it.
#[derive(Debug, Clone, Copy, Drop, PartialEq, Eq)]
pub enum CertificateRefusal {
    /// The verifier rejects the signature, or the key and the signature's algorithm do not go
    /// together, as `KeyData::question` says.
    Signature,
    /// No fingerprint that was given is the signature key's.
    Authority,
    /// The time is above 2^63 - 1.
    Time,
    /// The certificate is not yet valid at that time, or no longer.
    Window,
    /// The certificate does not allow the principal.
    Principal,
}

impl CertificateRefusal {
    /// The error by which `validate_at` and `validate_principal_at` say so.
    pub fn error(self) -> Error
        ensures { result ≡ refusal_error (refusal_of self) }
    {
        match self {
            CertificateRefusal::Signature
            | CertificateRefusal::Authority
            | CertificateRefusal::Window => Error::CertificateValidation,
            CertificateRefusal::Time => Error::Time,
            CertificateRefusal::Principal => Error::CertificateFieldInvalid(Field::ValidPrincipals),
        }
    }
}

/// Returns `Ok` if nothing is wrong, and else fails with the error of what is. Does not allocate.
pub fn result_of_refusal(first: Option<CertificateRefusal>) -> Result<()>
    ensures { ReportsRefusal (option_map refusal_of first) result }
{
    match first {
        None => Ok(()),
        Some(refusal) => Err(refusal.error()),
    }
}

/// The first refusal, if there is one, and else the principal's if that is not allowed. Does not
/// allocate.
pub fn refusal_with_principal(
    first: Option<CertificateRefusal>,
    is_allowed: bool,
) -> Option<CertificateRefusal>
    ensures { option_map refusal_of result
        ≡ or_else (option_map refusal_of first) (unless is_allowed UnlistedPrincipal None) }
{
    match first {
        Some(refusal) => Some(refusal),
        None => if is_allowed {
            None
        } else {
            Some(CertificateRefusal::Principal)
        },
    }
}
