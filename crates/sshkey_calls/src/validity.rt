//! Whether a certificate is valid, given what the caller's verification said.

ghost use Rattle.std.specs.Prelude.{◌≡◌, ◌≢◌, ◌↔◌, Bool, Err, IsTrue, MatchOption, option_map};
ghost use Rattle.sshkey_base.specs.Judgements.{SpellsSome};
ghost use Rattle.sshkey_cert_ref.specs.CertificateRef.{certificate_of, choices_of};
ghost use Rattle.sshkey_model.specs.Certificates.{certificate_at, SpellsCertificate};
ghost use Rattle.sshkey_model.specs.Keys.{Plain};
ghost use Rattle.sshkey_model.specs.Principals.{Allows};
ghost use Rattle.sshkey_model.specs.Reading.{Fault, whole};
ghost use Rattle.sshkey_model.specs.Refusals.{first_refusal, is_signed};
ghost use Rattle.sshkey_model.specs.Verification.{Question};
ghost use Rattle.sshkey_calls.specs.Numbers.{fault_number, refusal_status};
ghost use Rattle.sshkey_calls.specs.Validations.{FindsRefusalOr, HasRenamedAuthority, TellsRefusal, Verified, authorities_of, first_refusal_of, is_yes_number};

use crate::digest::{Sha256Digest, contains_fingerprint};
use crate::given_answer::GivenAnswer;
use crate::number::{MEMORY, error_status, refusal_status};
use sshkey_base::{HashAlg, Result};
use sshkey_cert::{CertificateRefusal, refusal_of_authority_or_time, refusal_with_principal};
use sshkey_cert_ref::CertificateRef;
use std::alloc::Global;

/// The number of what is wrong with a certificate first, with the principal too if there is one:
/// from 10 to 29 the fault of bytes that are none, from 30 on what is wrong with one, 0 where it is
/// valid, and 1 if memory ran out.
pub fn validate(
    alloc: Global,
    certificate: &[u8],
    unix_timestamp: u64,
    principal: Option<&str>,
    authorities: &[Sha256Digest],
    is_verified: u32,
) -> u32
    ensures first { (accepts : Question → Bool) → Verified accepts certificate.now is_verified
        → TellsRefusal (first_refusal_of accepts (authorities_of authorities.now) unix_timestamp
        (option_map (λ p. p.now) principal.entry)) certificate.now result }
    ensures spelled { result ≡ 0 → SpellsSome SpellsCertificate certificate.now }
    ensures fault { (fault : Fault) → whole certificate_at certificate.now ≡ Err fault
        → result ≡ fault_number fault }
    ensures memory { result ≡ 1 → HasRenamedAuthority certificate.now }
{
    match CertificateRef::from_bytes(certificate) {
        Ok(read) => judge(
            alloc,
            &read,
            unix_timestamp,
            principal,
            authorities,
            is_verified,
        ),
        Err(error) => error_status(error),
    }
}

/// The same of a certificate.
fn judge(
    alloc: Global,
    certificate: &CertificateRef<'_>,
    unix_timestamp: u64,
    principal: Option<&str>,
    authorities: &[Sha256Digest],
    is_verified: u32,
) -> u32
    ensures told { result ≢ 1 → result ≡ refusal_status (first_refusal_of
        (λ _. is_yes_number is_verified) (authorities_of authorities.now) unix_timestamp
        (option_map (λ p. p.now) principal.entry) (certificate_of certificate.now)) }
    ensures memory { result ≡ 1 → (choices_of certificate.now).signature_key ≢ Plain }
{
    match first_refusal(
        alloc,
        certificate,
        unix_timestamp,
        authorities,
        GivenAnswer::of(is_verified),
    ) {
        Ok(first) => refusal_status(refusal_with_principal(
            first,
            is_allowed(certificate, principal),
        )),
        Err(_) => MEMORY,
    }
}

/// Whether the certificate allows the principal, if there is one.
fn is_allowed(certificate: &CertificateRef<'_>, principal: Option<&str>) -> bool
    ensures { MatchOption principal.entry (IsTrue result)
        (λ p. IsTrue result ↔ Allows (certificate_of certificate.now) p.now) }
{
    match principal {
        Some(principal) => certificate.allows_principal(principal),
        None => true,
    }
}

/// What is wrong with the certificate first. Fails only when out of memory, for the fingerprint of
/// a key that is not in its normal form.
fn first_refusal(
    alloc: Global,
    certificate: &CertificateRef<'_>,
    unix_timestamp: u64,
    authorities: &[Sha256Digest],
    verification: GivenAnswer,
) -> Result<Option<CertificateRefusal>>
    ensures { FindsRefusalOr ((choices_of certificate.now).signature_key ≢ Plain)
        (first_refusal (λ _. verification.is_yes) (authorities_of authorities.now)
        unix_timestamp (certificate_of certificate.now)) result }
{
    if !is_signed(alloc, certificate, verification) {
        return Ok(Some(CertificateRefusal::Signature));
    }
    let key = certificate.signature_key_ref();
    let authority = key.fingerprint(alloc, HashAlg::Sha256)?;
    let is_trusted = contains_fingerprint(authorities, authority.as_bytes());
    let window = (certificate.valid_after(), certificate.valid_before());
    Ok(refusal_of_authority_or_time(is_trusted, window, unix_timestamp))
}

/// Whether the certificate raises a question, and the verification said yes to it.
///
/// Whether it raises one does not depend on the signed bytes, so they are not assembled. Where
/// memory for the question is refused, it raises one.
fn is_signed(alloc: Global, certificate: &CertificateRef<'_>, verification: GivenAnswer) -> bool
    ensures { result
        ≡ is_signed (λ _. verification.is_yes) (certificate_of certificate.now) }
{
    let key = certificate.signature_key_ref();
    match key.accepts(alloc, &[], &certificate.signature_ref(), &verification) {
        Ok(yes) => yes,
        Err(_) => verification.is_yes,
    }
}
