//! By what a host that shows a certificate is known.

ghost use Rattle.std.specs.Prelude.{◌≡◌, ◌≢◌, ◌⊎◌, ◌↔◌, IfErr, IsOk, IsTrue, map, string_bytes, true};
ghost use Rattle.sshkey_matching.specs.FromLists.{is_like_address};
ghost use Rattle.sshkey_cert.specs.Certificates.{certificate_of};
ghost use Rattle.sshkey_cert.specs.Validity.{FindsRefusal};
ghost use Rattle.sshkey_keys.specs.Keys.{key_of};
ghost use Rattle.sshkey_model.specs.Certificates.{IsCertificate, certificate_format};
ghost use Rattle.sshkey_model.specs.Keys.{normal_key};
ghost use Rattle.sshkey_model.specs.Parts.{BoxesFit};
ghost use Rattle.sshkey_model.specs.Refusals.{first_refusal_for};
ghost use Rattle.openssh_limits.specs.Padding.{padding};
ghost use Rattle.host_keys.specs.Answers.{AsksOf, IsWhyNoCertificate, IsWhyUnknown, KnownExactly, OkExactly, RefusesAsked, RefusesHostCertificate};
ghost use Rattle.host_keys.specs.Hosts.{AreForHosts, HasHostFields, HasOtherField, IsBadFor, IsGoodFor, IsHostCertificate, IsKnownBy, IsTrustedCertificate, OfAsked, are_accepted, lines_of, login_of, plain_name, signers};
ghost use Rattle.host_keys.specs.declared.refusal.HostRefusal.TheVariants as refusal;

use crate::certified_key::check_certified_key;
use crate::host_check::HostCheck;
use crate::known_by::KnownBy;
use crate::refusal::{HostRefusal, answer};
use crate::verdict::signed_verdict;
use openssh_limits::{Padding, openssh_accepts_key, openssh_reads_principals, openssh_reads_text};
use sshkey_base::certificate::Field;
use sshkey_base::{Error, HashAlg};
use sshkey_cert::laws::one_certificate;
use sshkey_cert::{Certificate, CertificateRefusal, is_normal_form};
use sshkey_keys::{KeyData, RawVerifier};
use sshkey_known_hosts::HostHasher;
use sshkey_krl::Revocations;
use sshkey_model::laws::key_fits;
use std::alloc::Global;

/// Says by what the host is known that shows a certificate, in its bytes. It is by `Authority` if
/// all of these hold:
/// - they are its normal form, and so those that were signed;
/// - a line `@cert-authority` of the texts of known_hosts, as OpenSSH reads them, has the key that
///   signed it for the host at that port, and no line for it revokes one of the two keys;
/// - `revocations`, such as the list of `RevokedHostKeys` (ssh_config(5)), does not revoke it;
/// - ssh(1) accepts the kind and the size of its key (`openssh_limits::openssh_accepts_key`), and of
///   the key that signed it, where RSA has 1,024 bits at least;
/// - it is one for hosts, without critical options, with texts that ssh(1) reads: at most 256
///   principals, and no zero byte in one or in the key id;
/// - it lists a principal, and is valid at that time for the host's name in small letters, for which
///   ssh asks it too.
///
/// So one that lists the name with capitals alone is not the host's, and one that lists an address in
/// another text than the canonical one is not that address's (`sshkey_matching::asked_host`). One
/// that lists nobody is no host's, as ssh(1) has it since 10.3; before, it was each host's of its
/// authority.
///
/// Else it asks, as ssh(1) does, whether the certified key is the host's. The host is known by
/// `CertifiedKey` if all of these hold:
/// - the bytes are the certificate's normal form, and nobody revokes it: neither `revocations`, nor
///   a line one of the two keys, nor a line that can't be read perhaps;
/// - ssh(1) accepts the key that signed, and reads the texts;
/// - `check_key` accepts the certified key;
/// - the verifier accepts the signature, by whichever key: ssh(1) reads no other certificate.
///
/// Unless memory runs out, it fails with the first of these that fits:
/// - `Certificate` with an error of `Certificate::from_bytes`;
/// - `NotNormalForm`;
/// - `Host`: the port is 0, the host is empty, or it is like an address and has no text as one;
/// - `Revoked`: `revocations` revokes the certificate, or a line one of the keys;
/// - `Unreadable`: a line that can't be read could be one for the host;
/// - `Invalid` with `Signature`: all is right with the certified key, but the signature;
/// - if the key that signed is no authority of the host: `UnacceptedKey` for it; `Certificate` with
///   `CertificateFieldInvalid`, for `KeyId` or `ValidPrincipals` that ssh(1) does not read; what
///   `check_key` says of the certified key, as `Changed` or `Unknown`;
/// - `UnacceptedKey` for its key, or the one that signed;
/// - `Certificate`: `CertificateFieldInvalid` with `CertType`, `CriticalOptions`, `KeyId` or
///   `ValidPrincipals`;
/// - `Invalid` with the first refusal (`Certificate::first_refusal_for`), which is never
///   `Authority`.
///
/// So the verifier is asked only about a certificate by an authority of the host, or one of a key
/// that is the host's. It is asked about an RSA signature with the zeros in front that the authority
/// left out, as ssh(1) verifies it (`openssh_limits::Padding`).
///
/// If it would refuse a host at another port than 22 with `Unknown`, it asks, as ssh(1) does, all
/// the texts about the host's plain name.
///
/// `Memory` means what it means for `Certificate::from_bytes`, or that a text has a line,
/// `revocations` had to be asked (`Revocations::revokes_none`) or the host is like an address.
pub fn check_certificate<H: HostHasher, R: Revocations, V: RawVerifier>(
    alloc: Global,
    login: &HostCheck,
    certificate: &[u8],
    hmac: &H,
    revocations: &R,
    verifier: &V,
) -> Result<KnownBy, HostRefusal>
    ensures exactly { KnownExactly (IsHostCertificate (login_of login.now (H.hmac hmac.now))
        (padding (V.accepts verifier.now)) (R.revokes revocations.now)
        (R.revokes_key revocations.now) certificate.now) result }
    ensures refused { IfErr result (λ r. r ≢ refusal.Memory → RefusesHostCertificate
        (login_of login.now (H.hmac hmac.now)) (padding (V.accepts verifier.now))
        (R.revokes revocations.now) (R.revokes_key revocations.now) certificate.now r) }
    ensures asks { AsksOf (certificate_format.needs certificate.now 0
        ⊎ (is_like_address login.now.host.now ≡ true)) (R.revokes_none revocations.now)
        (lines_of login.now.texts.now) result }
{
    one_certificate();
    let read = match Certificate::from_bytes(alloc, certificate) {
        Ok(read) => read,
        Err(error) => return Err(HostRefusal::of_certificate(error)),
    };
    if !is_normal_form(&read, certificate) {
        return Err(HostRefusal::NotNormalForm);
    }
    let padding = Padding { verifier };
    judge(alloc, login, &read, hmac, revocations, &padding)
}

/// By what the certificate makes the host known.
fn judge<H: HostHasher, R: Revocations, V: RawVerifier>(
    alloc: Global,
    login: &HostCheck,
    certificate: &Certificate,
    hmac: &H,
    revocations: &R,
    verifier: &V,
) -> Result<KnownBy, HostRefusal>
    requires { IsCertificate (certificate_of certificate.now) }
    ensures exactly { KnownExactly (λ by. OfAsked (login_of login.now (H.hmac hmac.now))
        (λ asked. IsKnownBy asked (V.accepts verifier.now) (R.revokes revocations.now)
        (R.revokes_key revocations.now) (certificate_of certificate.now) by)) result }
    ensures refused { IfErr result (RefusesAsked (login_of login.now (H.hmac hmac.now))
        (λ asked. IsWhyUnknown asked (V.accepts verifier.now) (R.revokes revocations.now)
        (R.revokes_key revocations.now) (certificate_of certificate.now))) }
    ensures asks { AsksOf (is_like_address login.now.host.now ≡ true)
        (R.revokes_none revocations.now) (lines_of login.now.texts.now) result }
{
    let asked = login.asked(alloc)?;
    let login = login.under(asked.as_str());
    check_asked_certificate(alloc, &login, certificate, hmac, revocations, verifier)
}

/// The same of a host under the name that is asked.
fn check_asked_certificate<H: HostHasher, R: Revocations, V: RawVerifier>(
    alloc: Global,
    login: &HostCheck,
    certificate: &Certificate,
    hmac: &H,
    revocations: &R,
    verifier: &V,
) -> Result<KnownBy, HostRefusal>
    requires { IsCertificate (certificate_of certificate.now) }
    ensures exactly { KnownExactly (IsKnownBy (login_of login.now (H.hmac hmac.now))
        (V.accepts verifier.now) (R.revokes revocations.now) (R.revokes_key revocations.now)
        (certificate_of certificate.now)) result }
    ensures refused { IfErr result (IsWhyUnknown (login_of login.now (H.hmac hmac.now))
        (V.accepts verifier.now) (R.revokes revocations.now) (R.revokes_key revocations.now)
        (certificate_of certificate.now)) }
    ensures asks { AsksOf ⊥ (R.revokes_none revocations.now) (lines_of login.now.texts.now)
        result }
{
    let Err(first) = check_by_authority(alloc, login, certificate, hmac, revocations, verifier)
    else {
        return Ok(KnownBy::Authority);
    };
    if first.is_final() {
        return Err(first);
    }
    match check_certified_key(alloc, login, certificate, hmac, revocations, verifier) {
        Ok(()) => Ok(KnownBy::CertifiedKey),
        Err(why) => Err(first.or_of_key(why)),
    }
}

/// Whether the certificate is by an authority of the host, and valid for it.
fn check_by_authority<H: HostHasher, R: Revocations, V: RawVerifier>(
    alloc: Global,
    login: &HostCheck,
    certificate: &Certificate,
    hmac: &H,
    revocations: &R,
    verifier: &V,
) -> Result<(), HostRefusal>
    requires { IsCertificate (certificate_of certificate.now) }
    ensures exactly { OkExactly (IsTrustedCertificate (login_of login.now (H.hmac hmac.now))
        (V.accepts verifier.now) (R.revokes revocations.now) (certificate_of certificate.now))
        result }
    ensures refused { IfErr result (IsWhyNoCertificate (login_of login.now (H.hmac hmac.now))
        (V.accepts verifier.now) (R.revokes revocations.now) (certificate_of certificate.now)) }
    ensures asks { AsksOf ⊥ (R.revokes_none revocations.now) (lines_of login.now.texts.now)
        result }
{
    key_fits();
    let (key, signer) = (certificate.public_key(), certificate.signature_key());
    let revoked = revocations.is_certificate_revoked(alloc, certificate);
    let said = signed_verdict(
        alloc,
        login.texts,
        login.host,
        login.port,
        key,
        signer,
        hmac,
    );
    answer(revoked, said)?;
    if !are_accepted(key, signer, login.least_rsa_bits) {
        return Err(HostRefusal::UnacceptedKey);
    }
    validate(
        alloc,
        certificate,
        login.host,
        login.unix_timestamp,
        verifier,
    )
}

/// Whether ssh(1) accepts the host's key, and the key that signed for it. What size an RSA key has
/// to have is asked of the host's: a key that signs has 1,024 bits at least.
fn are_accepted(key: &KeyData, signer: &KeyData, least_rsa_bits: u32) -> bool
    ensures { result ≡ are_accepted least_rsa_bits (key_of key.now) (key_of signer.now) }
{
    openssh_accepts_key(key, least_rsa_bits) && openssh_accepts_key(signer, 0)
}

/// Whether the certificate is good for the host at that time, if its authority is.
fn validate<V: RawVerifier>(
    alloc: Global,
    certificate: &Certificate,
    host: &str,
    unix_timestamp: u64,
    verifier: &V,
) -> Result<(), HostRefusal>
    requires { BoxesFit (normal_key (certificate_of certificate.now).signed.signature_key) }
    ensures exactly { OkExactly (IsGoodFor (V.accepts verifier.now) unix_timestamp
        (plain_name host.now) (certificate_of certificate.now)) result }
    ensures refused { IfErr result (λ r. r ≢ refusal.Memory → IsBadFor (V.accepts verifier.now)
        unix_timestamp (plain_name host.now) (certificate_of certificate.now) r) }
{
    if let Err(error) = check_fields(certificate) {
        return Err(HostRefusal::Certificate(error));
    }
    match first_refusal(alloc, certificate, host, unix_timestamp, verifier) {
        Ok(None) => Ok(()),
        Ok(Some(first)) => Err(HostRefusal::Invalid(first)),
        Err(_) => Err(HostRefusal::Memory),
    }
}

/// Whether the certificate is for hosts, without critical options, and has texts that ssh(1) reads.
fn check_fields(certificate: &Certificate) -> sshkey_base::Result<()>
    ensures exactly { IsOk result ↔ HasHostFields (certificate_of certificate.now) }
    ensures refused { IfErr result (λ e. HasOtherField (certificate_of certificate.now) e) }
{
    if !certificate.cert_type().is_host() {
        return Err(Error::CertificateFieldInvalid(Field::CertType));
    }
    if !certificate.critical_options().is_empty() {
        return Err(Error::CertificateFieldInvalid(Field::CriticalOptions));
    }
    if !openssh_reads_text(certificate.key_id()) {
        return Err(Error::CertificateFieldInvalid(Field::KeyId));
    }
    if !are_for_hosts(certificate.valid_principals()) {
        return Err(Error::CertificateFieldInvalid(Field::ValidPrincipals));
    }
    Ok(())
}

/// What is wrong with the certificate first, for whoever trusts the key that signed. Fails only
/// when out of memory.
fn first_refusal<V: RawVerifier>(
    alloc: Global,
    certificate: &Certificate,
    host: &str,
    unix_timestamp: u64,
    verifier: &V,
) -> sshkey_base::Result<Option<CertificateRefusal>>
    requires { BoxesFit (normal_key (certificate_of certificate.now).signed.signature_key) }
    ensures { FindsRefusal (first_refusal_for (V.accepts verifier.now)
        (signers (certificate_of certificate.now)) unix_timestamp (plain_name host.now)
        (certificate_of certificate.now)) result }
{
    let signer = certificate
        .signature_key()
        .fingerprint(alloc, HashAlg::Sha256)?;
    let name = host.to_ascii_lowercase(alloc)?;
    certificate.first_refusal_for(alloc, unix_timestamp, name.as_str(), &[signer], verifier)
}

/// Whether there are principals, and ssh(1) reads them.
fn are_for_hosts(names: &[String]) -> bool
    ensures { IsTrue result ↔ AreForHosts (map string_bytes names.now) }
{
    !names.is_empty() && openssh_reads_principals(names)
}
