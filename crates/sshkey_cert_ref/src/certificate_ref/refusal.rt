//! What is wrong with a certificate, for logs.

ghost use Rattle.std.specs.Prelude.{IfErr};
ghost use Rattle.sshkey_cert.specs.Validity.{FindsRefusal, fingerprints_of};
ghost use Rattle.sshkey_model.specs.Refusals.{first_refusal, first_refusal_for};
ghost use Rattle.sshkey_cert_ref.specs.CertificateRef.{NeedsAnswer, certificate_of};

use super::CertificateRef;
use sshkey_base::Result;
use sshkey_cert::{
    CertificateRefusal, contains_fingerprint, refusal_of_authority_or_time, refusal_with_principal,
};
use sshkey_fingerprints::Fingerprint;
use sshkey_keys::RawVerifier;
use std::alloc::Global;

impl CertificateRef<'_> {
    /// What is wrong with the certificate first, at that time, for an authority with one of the
    /// fingerprints: `None` exactly if `validate_at` is `Ok`. Fails only when out of memory, and
    /// allocates where `validate_at` does.
    pub fn first_refusal<V: RawVerifier>(
        &self,
        alloc: Global,
        unix_timestamp: u64,
        fingerprints: &[Fingerprint],
        verifier: &V,
    ) -> Result<Option<CertificateRefusal>>
        ensures first { FindsRefusal (first_refusal (V.accepts verifier.now)
            (fingerprints_of fingerprints.now) unix_timestamp (certificate_of self.now)) result }
        ensures asks { IfErr result (λ _. NeedsAnswer (V.runs_out verifier.now) self.now) }
    {
        if !self.is_signed(alloc, verifier)? {
            return Ok(Some(CertificateRefusal::Signature));
        }
        let authority = self.authority(alloc)?;
        let is_trusted = contains_fingerprint(fingerprints, authority.as_bytes());
        let window = (self.valid_after(), self.valid_before());
        Ok(refusal_of_authority_or_time(is_trusted, window, unix_timestamp))
    }

    /// As `first_refusal`, and last `Principal` if the certificate does not allow the principal:
    /// `None` exactly if `validate_principal_at` is `Ok`.
    pub fn first_refusal_for<V: RawVerifier>(
        &self,
        alloc: Global,
        unix_timestamp: u64,
        principal: &str,
        fingerprints: &[Fingerprint],
        verifier: &V,
    ) -> Result<Option<CertificateRefusal>>
        ensures first { FindsRefusal (first_refusal_for (V.accepts verifier.now)
            (fingerprints_of fingerprints.now) unix_timestamp principal.now
            (certificate_of self.now)) result }
        ensures asks { IfErr result (λ _. NeedsAnswer (V.runs_out verifier.now) self.now) }
    {
        let first = self.first_refusal(alloc, unix_timestamp, fingerprints, verifier)?;
        Ok(refusal_with_principal(first, self.allows_principal(principal)))
    }
}
