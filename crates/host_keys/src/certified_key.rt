//! Whether the key in a certificate is the host's, whoever signed it.

ghost use Rattle.std.specs.Prelude.{◌≡◌, ◌≢◌, ◌↔◌, IfErr, IsOk};
ghost use Rattle.sshkey_cert.specs.Certificates.{certificate_of};
ghost use Rattle.sshkey_cert.specs.Validity.{IsSigned};
ghost use Rattle.sshkey_cert.specs.declared.certificate.refusal.CertificateRefusal.TheVariants.{Signature};
ghost use Rattle.host_keys.specs.Answers.{AsksOf, IsWhyNoCertifiedKey, OkExactly};
ghost use Rattle.host_keys.specs.Hosts.{HasTrustedKey, IsRead, IsUnread, lines_of, login_of};
ghost use Rattle.host_keys.specs.declared.refusal.HostRefusal.TheVariants as refusal;

use crate::host_check::HostCheck;
use crate::key::check_asked;
use crate::refusal::HostRefusal;
use openssh_limits::{openssh_accepts_key, openssh_reads_principals, openssh_reads_text};
use sshkey_base::Error;
use sshkey_base::certificate::Field;
use sshkey_cert::{Certificate, CertificateRefusal};
use sshkey_keys::RawVerifier;
use sshkey_known_hosts::HostHasher;
use sshkey_krl::Revocations;
use std::alloc::Global;

/// Accepts the certified key of a host under the name that is asked, if ssh(1) reads the
/// certificate, the key is the host's, and somebody signed it. The verifier is asked last.
pub(crate) fn check_certified_key<H: HostHasher, R: Revocations, V: RawVerifier>(
    alloc: Global,
    login: &HostCheck,
    certificate: &Certificate,
    hmac: &H,
    revocations: &R,
    verifier: &V,
) -> Result<(), HostRefusal>
    ensures exactly { OkExactly (HasTrustedKey (login_of login.now (H.hmac hmac.now))
        (V.accepts verifier.now) (R.revokes_key revocations.now)
        (certificate_of certificate.now)) result }
    ensures refused { IfErr result (IsWhyNoCertifiedKey (login_of login.now (H.hmac hmac.now))
        (V.accepts verifier.now) (R.revokes_key revocations.now)
        (certificate_of certificate.now)) }
    ensures asks { AsksOf ⊥ (R.revokes_none revocations.now) (lines_of login.now.texts.now)
        result }
{
    check_read(certificate)?;
    check_asked(alloc, login, certificate.public_key(), hmac, revocations)?;
    check_signature(alloc, certificate, verifier)
}

/// Whether ssh(1) reads the certificate.
fn check_read(certificate: &Certificate) -> Result<(), HostRefusal>
    ensures exactly { IsOk result ↔ IsRead (certificate_of certificate.now) }
    ensures refused { IfErr result (IsUnread (certificate_of certificate.now)) }
{
    if !openssh_accepts_key(certificate.signature_key(), 0) {
        return Err(HostRefusal::UnacceptedKey);
    }
    if !openssh_reads_text(certificate.key_id()) {
        return Err(HostRefusal::Certificate(Error::CertificateFieldInvalid(Field::KeyId)));
    }
    if !openssh_reads_principals(certificate.valid_principals()) {
        return Err(HostRefusal::Certificate(Error::CertificateFieldInvalid(
            Field::ValidPrincipals,
        )));
    }
    Ok(())
}

/// Whether the verifier accepts the signature, by whichever key.
fn check_signature<V: RawVerifier>(
    alloc: Global,
    certificate: &Certificate,
    verifier: &V,
) -> Result<(), HostRefusal>
    ensures exactly { OkExactly (IsSigned (V.accepts verifier.now)
        (certificate_of certificate.now)) result }
    ensures refused { IfErr result (λ r. r ≢ refusal.Memory → r ≡ refusal.Invalid Signature) }
{
    let Err(error) = certificate.verify_signature(alloc, verifier) else {
        return Ok(());
    };
    if error.is_memory() {
        return Err(HostRefusal::Memory);
    }
    Err(HostRefusal::Invalid(CertificateRefusal::Signature))
}
