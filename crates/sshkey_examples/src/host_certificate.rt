//! A question of whoever connects to a host: is the certificate that it shows good for its name?

ghost use Rattle.std.specs.Prelude.{◌≡◌, ◌≢◌, IfErr};
ghost use Rattle.ssh_key.specs.base.Judgements.{AcceptsExactly};
ghost use Rattle.ssh_key.specs.cert.Validity.{fingerprints_of};
ghost use Rattle.ssh_key.specs.cert_ref.CertificateRef.{certificate_of};
ghost use Rattle.ssh_key.specs.types.Error.TheVariants.{Memory};
ghost use Rattle.sshkey_examples.specs.HostCertificates.{CertifiesHost, IsBadFor, IsCertifiedHost, IsPlainForHosts, IsWhyNot, NeedsMemory};

use ssh_key::certificate::{CertificateRef, Field};
use ssh_key::laws::one_certificate;
use ssh_key::{Error, Fingerprint, RawVerifier, Result};
use std::alloc::Global;

/// Accepts the bytes that a host shows if they are a certificate for hosts, valid at that time for
/// the host's name, by one of the authorities with these fingerprints. Reading copies nothing.
///
/// It asks no revocation list, asks the verifier before it looks at the authority, and compares the
/// name as it is given: `host_keys::check_certificate` does all three as ssh(1) does.
///
/// Unless memory runs out, it rejects all others with the first of these: the errors of
/// `CertificateRef::from_bytes`; `CertificateFieldInvalid` with `CertType` for a certificate for
/// users, with `CriticalOptions` for one that has some, since this caller knows none, and with
/// `ValidPrincipals` for one that lists none, as ssh(1) does since 10.3; the errors of
/// `CertificateRef::validate_principal_at`. `Memory` is answered only of a certificate that this
/// last call judges.
pub fn check_host<V: RawVerifier>(
    alloc: Global,
    shown: &[u8],
    host: &str,
    unix_timestamp: u64,
    authorities: &[Fingerprint],
    verifier: &V,
) -> Result<()>
    ensures exactly { AcceptsExactly (IsCertifiedHost (V.accepts verifier.now)
        (fingerprints_of authorities.now) unix_timestamp shown.now host.now) result }
    ensures refused { IfErr result (λ e. e ≢ Memory → IsWhyNot (V.accepts verifier.now)
        (fingerprints_of authorities.now) unix_timestamp shown.now host.now e) }
    ensures memory { IfErr result (λ e. e ≡ Memory → NeedsMemory shown.now) }
{
    one_certificate();
    let certificate = CertificateRef::from_bytes(shown)?;
    check_certificate(
        alloc,
        &certificate,
        host,
        unix_timestamp,
        authorities,
        verifier,
    )
}

/// The same of a certificate that was read.
fn check_certificate<V: RawVerifier>(
    alloc: Global,
    certificate: &CertificateRef<'_>,
    host: &str,
    unix_timestamp: u64,
    authorities: &[Fingerprint],
    verifier: &V,
) -> Result<()>
    ensures exactly { AcceptsExactly (CertifiesHost (V.accepts verifier.now)
        (fingerprints_of authorities.now) unix_timestamp host.now
        (certificate_of certificate.now)) result }
    ensures refused { IfErr result (λ e. e ≢ Memory → IsBadFor (V.accepts verifier.now)
        (fingerprints_of authorities.now) unix_timestamp host.now
        (certificate_of certificate.now) e) }
    ensures memory { IfErr result
        (λ e. e ≡ Memory → IsPlainForHosts (certificate_of certificate.now)) }
{
    if !certificate.cert_type().is_host() {
        return Err(Error::CertificateFieldInvalid(Field::CertType));
    }
    if !certificate.critical_options().is_empty() {
        return Err(Error::CertificateFieldInvalid(Field::CriticalOptions));
    }
    if certificate.valid_principals().is_empty() {
        return Err(Error::CertificateFieldInvalid(Field::ValidPrincipals));
    }
    certificate.validate_principal_at(alloc, unix_timestamp, host, authorities, verifier)
}
