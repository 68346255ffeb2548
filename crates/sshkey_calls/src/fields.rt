//! Fields of certificates.

ghost use Rattle.std.specs.Prelude.{◌≡◌, IsTrue};
ghost use Rattle.sshkey_cert_ref.specs.CertificateRef.{certificate_of};
ghost use Rattle.sshkey_model.specs.Certificates.{type_number};
ghost use Rattle.sshkey_cert_values.specs.CertificateFields.{type_of};
ghost use Rattle.sshkey_calls.specs.Certificates.{AreFieldsOf, IsNumberOf};

use sshkey_cert_ref::CertificateRef;
use sshkey_cert_values::CertType;

/// The fields of a certificate that a policy asks for.
#[repr(C)]
#[derive(Clone, Copy, Debug)]
pub struct CertificateFields {
    /// The number that the signer gave it.
    pub serial: u64,
    /// The first second of its window.
    pub valid_after: u64,
    /// The first second after its window, or 2^64 - 1 if it has no end.
    pub valid_before: u64,
    /// 1 for users, 2 for hosts.
    pub certificate_type: u32,
    /// 0 where it lists no principals, and else 1.
    pub lists_principals: u32,
    /// 0 where it has no critical options, and else 1.
    pub has_critical_options: u32,
}

/// The fields of a certificate that was read.
pub fn fields_of(read: &CertificateRef<'_>) -> CertificateFields
    ensures { AreFieldsOf (certificate_of read.now) result }
{
    CertificateFields {
        serial: read.serial(),
        valid_after: read.valid_after(),
        valid_before: read.valid_before(),
        certificate_type: number_of_type(read.cert_type()),
        lists_principals: number_of(!read.valid_principals().is_empty()),
        has_critical_options: number_of(!read.critical_options().is_empty()),
    }
}

/// 1 for users, 2 for hosts.
fn number_of_type(cert_type: CertType) -> u32
    ensures { result ≡ type_number (type_of cert_type) }
{
    match cert_type {
        CertType::User => 1,
        CertType::Host => 2,
    }
}

/// 1 where this holds, and else 0.
fn number_of(holds: bool) -> u32
    ensures { IsNumberOf (IsTrue holds) result }
{
    if holds { 1 } else { 0 }
}
