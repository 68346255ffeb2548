//! Who may log in.

ghost use Rattle.std.specs.Prelude.{◌≡◌, ◌≢◌, true, IfErr, OnOk};
ghost use Rattle.sshkey_cert.specs.Certificates.{certificate_of};
ghost use Rattle.sshkey_cert.specs.Validity.{fingerprints_of};
ghost use Rattle.sshkey_model.specs.Certificates.{IsCertificate, SpellsCertificate};
ghost use Rattle.openssh_limits.specs.Padding.{padding};
ghost use Rattle.login_policy.specs.Logins.{GrantsExactly, HasRightFields, login_of, PendsExactly};
ghost use Rattle.login_policy.specs.Refusals.{HasWrongField, NeedsJudging, NeedsMemory, RefusesLogin, invalid};
ghost use Rattle.login_policy.specs.declared.refusal.LoginRefusal.TheVariants.{Memory};

use crate::authority::validate;
use crate::client::Client;
use crate::grant::{Grant, grant_of};
use crate::key::{are_accepted, raises_question};
use crate::options::{are_known, are_plain, is_allowed_from};
use crate::pending_login::Pending;
use crate::principals::are_for;
use crate::refusal::LoginRefusal;
use openssh_limits::openssh_reads_text;
use sshkey_base::Error;
use sshkey_base::certificate::Field;
use sshkey_cert::laws::one_certificate;
use sshkey_cert::{Certificate, CertificateRefusal, is_normal_form};
use sshkey_keys::{Fingerprint, RawVerifier};
use sshkey_krl::Revocations;
use sshkey_model::laws::certificates::refused_or_wanted;
use std::alloc::Global;

/// A login that is asked for, and whom the server trusts.
#[derive(Debug, Clone, Copy)]
pub struct Login<'a> {
    /// The bytes of the certificate, as the client sent them. Do not write them anew from a
    /// `Certificate`, whose bytes are always its normal form.
    pub certificate: &'a [u8],
    /// The name of the user who is to be let in.
    pub user: &'a str,
    /// The time, in seconds since 1970.
    pub unix_timestamp: u64,
    /// The SHA-256 fingerprints of the keys that may sign logins. Others count for nothing.
    pub authorities: &'a [Fingerprint],
    /// How many bits an RSA key has at least, as `RequiredRSASize` in sshd_config(5). Below 1,024,
    /// as 0, it is 1,024, which is sshd's own.
    pub least_rsa_bits: u32,
    /// Where the client is.
    pub client: Client,
}

/// Lets a user in who holds the key that is certified, if the bytes are a certificate for users,
/// which lists the user's name. It must be valid at that time, by one of the authorities, and not
/// revoked, and let the client in from its address. It must be as it was signed, in its normal form.
/// The keys, texts and options must be such as sshd(8) accepts (PROTOCOL.certkeys):
///
/// - no DSA key, none under a private-use name, and no RSA key of fewer bits than the login says or
///   of more than 16,384; a point that begins with 04; no zero byte in an application
///   (`openssh_limits::openssh_accepts_key`). So is the authority's key, where RSA has 1,024 bits
///   at least;
/// - no zero byte in the key id, a principal, or the name of an extension, and at most 256
///   principals;
/// - critical options `force-command`, neither empty nor with a zero byte, `source-address`, a list
///   of networks (`sshkey_matching::is_source_list`), and `verify-required`, which is empty, and
///   no others;
/// - extensions that are flags, as `permit-pty`, which are empty, and any others.
///
/// Out of memory aside, it refuses all others with the first of these:
///
/// - `Certificate` with an error of `Certificate::from_bytes`;
/// - `NotNormalForm`;
/// - `Certificate` with `CertificateFieldInvalid`: `CertType` for a certificate for hosts;
/// - `UnacceptedKey` for the key that is certified, or the authority's;
/// - `Certificate` with `CertificateFieldInvalid`: `CriticalOptions` if an option is not known or
///   sshd reads no such value; `Extensions` if data stand in a flag or a name has a zero byte;
///   `KeyId` if the key id has one; `ValidPrincipals` if it lists no principal (such a certificate
///   lets nobody in: sshd_config(5), `TrustedUserCAKeys`), more than 256, or one with a zero byte,
///   and if the user's name is empty, which a certificate may list;
/// - `Invalid` with `Authority` for another authority;
/// - `Revoked`;
/// - `Invalid` with `Time`, `Window` or `Principal`, as `Certificate::first_refusal_for` says;
/// - `Elsewhere`;
/// - `Invalid` with `Signature`.
///
/// For bytes that are no certificate, `Memory` means what it means for `Certificate::from_bytes`.
///
/// It is `pending`, and then the verifier's answer: so that is asked only where nothing else is
/// wrong. A key that a client made and signed with never reaches it, nor an expired certificate. It
/// is asked about an RSA signature with the zeros in front that the authority left out, as sshd(8)
/// verifies it (`openssh_limits::Padding`).
///
/// Who knows of no revocation writes `NoRevocations`. Pass on what reading a list gave: an `Err`
/// revokes every certificate.
///
/// It does not ask whether a point lies on its curve: sshd(8) reads no point that does not.
///
/// Whoever calls it lets nobody in before the client has signed under the key that is certified, and
/// does what the grant says, the flags in a security key's signature included. The options of a line
/// `cert-authority` of authorized_keys, by which sshd trusts an authority for one user, also bind a
/// login: for an authority that stands there, the caller must judge them.
pub fn log_in<R: Revocations, V: RawVerifier>(
    alloc: Global,
    login: &Login,
    revocations: &R,
    verifier: &V,
) -> Result<Grant, LoginRefusal>
    ensures exactly { GrantsExactly
        (login_of login.now (padding (V.accepts verifier.now)) (R.revokes revocations.now))
        result }
    ensures refused { IfErr result (λ r. r ≢ Memory → RefusesLogin
        (login_of login.now (padding (V.accepts verifier.now)) (R.revokes revocations.now)) r) }
    ensures memory { IfErr result (λ r. r ≡ Memory
        → NeedsMemory (fingerprints_of login.now.authorities.now) login.now.certificate.now) }
{
    one_certificate();
    refused_or_wanted();
    let held = pending(alloc, login, revocations)?;
    held.decide_by(alloc, verifier)
}

/// All that `log_in` asks but the authority's signature: `Ok` exactly where it would let in if a
/// verifier said yes to each question, and then with the one question that is left. It refuses with
/// what `log_in` refuses with first; with `Invalid` and `Signature`, last, a certificate that raises
/// no question, whose signature is by no algorithm of its authority's key.
pub fn pending<R: Revocations>(
    alloc: Global,
    login: &Login,
    revocations: &R,
) -> Result<Pending, LoginRefusal>
    ensures exactly { PendsExactly
        (login_of login.now (λ _. true) (R.revokes revocations.now)) result }
    ensures refused { IfErr result (λ r. r ≢ Memory → RefusesLogin
        (login_of login.now (λ _. true) (R.revokes revocations.now)) r) }
    ensures memory { IfErr result (λ r. r ≡ Memory
        → NeedsMemory (fingerprints_of login.now.authorities.now) login.now.certificate.now) }
{
    let certificate = Certificate::from_bytes(alloc, login.certificate)?;
    pending_of(alloc, certificate, login, revocations)
}

/// The same of the certificate that was read from the login's bytes.
pub fn pending_of<R: Revocations>(
    alloc: Global,
    certificate: Certificate,
    login: &Login,
    revocations: &R,
) -> Result<Pending, LoginRefusal>
    requires { SpellsCertificate (certificate_of certificate) login.now.certificate.now }
    ensures exactly { PendsExactly
        (login_of login.now (λ _. true) (R.revokes revocations.now)) result }
    ensures refused { IfErr result (λ r. r ≢ Memory → RefusesLogin
        (login_of login.now (λ _. true) (R.revokes revocations.now)) r) }
    ensures memory { IfErr result (λ r. r ≡ Memory → NeedsJudging
        (fingerprints_of login.now.authorities.now) (certificate_of certificate)) }
{
    one_certificate();
    refused_or_wanted();
    if !is_normal_form(&certificate, login.certificate) {
        return Err(LoginRefusal::NotNormalForm);
    }
    check_fields(&certificate, login.user, login.least_rsa_bits)?;
    let authority = validate(alloc, &certificate, login, revocations)?;
    if !is_allowed_from(certificate.critical_options(), login.client) {
        return Err(LoginRefusal::Elsewhere);
    }
    if !raises_question(&certificate) {
        return Err(LoginRefusal::Invalid(CertificateRefusal::Signature));
    }
    let grant = grant_of(alloc, &certificate, authority)?;
    Ok(Pending { certificate, grant })
}

/// Whether the fields are those of a certificate that lets the user in. Does not allocate.
fn check_fields(
    certificate: &Certificate,
    user: &str,
    least_rsa_bits: u32,
) -> Result<(), LoginRefusal>
    requires { IsCertificate (certificate_of certificate.now) }
    ensures right { OnOk result
        (HasRightFields user.now least_rsa_bits (certificate_of certificate.now)) }
    ensures wrong { IfErr result
        (HasWrongField user.now least_rsa_bits (certificate_of certificate.now)) }
{
    if !certificate.cert_type().is_user() {
        return Err(invalid(Field::CertType));
    }
    if !are_accepted(certificate, least_rsa_bits) {
        return Err(LoginRefusal::UnacceptedKey);
    }
    if !are_known(certificate.critical_options()) {
        return Err(invalid(Field::CriticalOptions));
    }
    if !are_plain(certificate.extensions()) {
        return Err(invalid(Field::Extensions));
    }
    if !openssh_reads_text(certificate.key_id()) {
        return Err(invalid(Field::KeyId));
    }
    if !are_for(certificate.valid_principals(), user) {
        return Err(invalid(Field::ValidPrincipals));
    }
    Ok(())
}

/// The refusal of a certificate for that field.
fn invalid(field: Field) -> LoginRefusal
    ensures { result ≡ invalid field }
{
    LoginRefusal::Certificate(Error::CertificateFieldInvalid(field))
}
