//! Whether a certificate lets its holder in, by an authority that authorized_keys lists.

ghost use Rattle.std.specs.Prelude.{◌≡◌, ◌≢◌, IfErr, IfOk, IsTrue};
ghost use Rattle.openssh_limits.specs.Limits.{openssh_accepts_key};
ghost use Rattle.login_terms.specs.Options.{terms_of};
ghost use Rattle.sshkey_cert.specs.Certificates.{certificate_of};
ghost use Rattle.sshkey_model.specs.Certificates.{IsCertificate};
ghost use Rattle.openssh_limits.specs.Padding.{padding};
ghost use Rattle.user_keys.specs.Answers.{GrantsExactly, IsWhyNoLine};
ghost use Rattle.user_keys.specs.CertificateLogins.{AdmitsCertificate, FindsLine, IsAsStrictWith, IsLineFor, IsWhyNoCertificate, NeedsMemory, login_with};
ghost use Rattle.user_keys.specs.Certificates.{judged_by, judged_with};
ghost use Rattle.user_keys.specs.UserLogins.{OfCertificate, login_of};
ghost use Rattle.user_keys.specs.declared.refusal.UserRefusal.TheVariants as refusal;

use crate::answer::Judgement;
use crate::credential::Credential;
use crate::first_line::first_grant;
use crate::grant::{NamedLine, UserGrant};
use crate::login::UserLogin;
use crate::merge::{agree, merged};
use crate::names::name_listed;
use crate::policy::{log_in_as, read_certificate};
use crate::refusal::{Reason, UserRefusal};
use login_terms::Terms;
use sshkey_base::HashAlg;
use sshkey_cert::Certificate;
use sshkey_cert::laws::one_certificate;
use sshkey_keys::RawVerifier;
use sshkey_krl::Revocations;
use std::alloc::Global;

/// Lets in who holds the key that is certified, if the bytes are a certificate, and a line
/// `cert-authority` of the text of authorized_keys, as sshd(8) reads it, has the key that signed it,
/// and allows the certificate, the place and the time. The first such line counts. The certificate
/// is judged as by `login_policy::log_in`, with that authority alone, for the user, or for the first
/// of the names in the line's `principals` that it lists. The grant is what both say: a command of
/// either, and where there are two the same; what both permit; and a touch or a verified user where
/// one of them asks for it.
///
/// A line that refuses is passed over, as is one that sshd rejects (`log_in_by_key`).
///
/// Unless memory runs out, it fails with the first of these that fits:
/// - `Certificate` with `login_policy::LoginRefusal::Certificate`: the bytes are no certificate;
/// - `UnacceptedKey`: sshd accepts no key of the kind or the size of that which signed it;
/// - `Unclear`: a line may be for the authority, or may allow the certificate, and none before it
///   lets it in;
/// - `NotAllowed`: lines are for the authority, and each refuses the certificate;
/// - `NotListed`;
/// - `Certificate`: a line lets the certificate in, and `log_in` refuses it, for its signature last.
///   No later line counts.
///
/// So whatever sshd makes of what cannot be told here, it lets the certificate in by the line of
/// the grant, and on its terms.
///
/// `Memory` means that the bytes need memory to be read (`Certificate::from_bytes`), or that a line
/// may have the key that signed the certificate: other lines ask for none.
pub fn log_in_by_certificate<R: Revocations, V: RawVerifier>(
    alloc: Global,
    login: &UserLogin,
    certificate: &[u8],
    revocations: &R,
    verifier: &V,
) -> Result<UserGrant, UserRefusal>
    ensures exactly { GrantsExactly (AdmitsCertificate (login_with login.now certificate.now
        (padding (V.accepts verifier.now)) (R.revokes revocations.now))) result }
    ensures as_strict { IfOk result (IsAsStrictWith (login_with login.now certificate.now
        (padding (V.accepts verifier.now)) (R.revokes revocations.now))) }
    ensures refused { IfErr result (λ r. r ≢ refusal.Memory
        → IsWhyNoCertificate (login_with login.now certificate.now
        (padding (V.accepts verifier.now)) (R.revokes revocations.now)) r) }
    ensures asks { IfErr result (λ r. r ≡ refusal.Memory → NeedsMemory (login_with login.now
        certificate.now (padding (V.accepts verifier.now)) (R.revokes revocations.now))) }
{
    one_certificate();
    let read = read_certificate(alloc, certificate)?;
    let first = first_grant(alloc, login, Credential::Certificate(&read))?;
    // a line that lets the certificate in does so for a name
    let Some(name) = name_listed(read.valid_principals(), login.user, &first.terms.principals)
    else {
        return Err(UserRefusal::NotListed);
    };
    let Ok(authority) = read.signature_key().fingerprint(alloc, HashAlg::Sha256) else {
        return Err(UserRefusal::Memory);
    };
    let granted = log_in_as(
        alloc,
        login,
        certificate,
        name,
        &[authority],
        revocations,
        verifier,
    )?;
    Ok(merged(first, granted))
}

/// The first line of the certificate's authority that lets the certificate in, and the name for
/// which it does, as `log_in_by_certificate` finds it; the rest of the certificate is not asked
/// about. sshd(8) accepts the authority's key.
///
/// Unless memory runs out, it fails with `Unclear`, `NotAllowed` or `NotListed`, as
/// `log_in_by_certificate` does.
pub fn find_authority_line(
    alloc: Global,
    login: &UserLogin,
    certificate: &Certificate,
) -> Result<NamedLine, UserRefusal>
    requires certificate { IsCertificate (certificate_of certificate.now) }
    requires accepted { IsTrue (openssh_accepts_key 0
        (certificate_of certificate.now).signed.signature_key) }
    ensures exactly { FindsLine (IsLineFor (login_of login.now)
        (certificate_of certificate.now)) result }
    ensures refused { IfErr result (λ r. r ≢ refusal.Memory → IsWhyNoLine (login_of login.now)
        (OfCertificate (certificate_of certificate.now)) r) }
{
    let first = first_grant(alloc, login, Credential::Certificate(certificate))?;
    // a line that lets the certificate in does so for a name
    let Some(name) = name_listed(
        certificate.valid_principals(),
        login.user,
        &first.terms.principals,
    ) else {
        return Err(UserRefusal::NotListed);
    };
    let name = String::from_str(alloc, name)?;
    Ok(NamedLine { first, name })
}

/// What the terms of an authority's line say of a login by the certificate, of which they say that
/// alone. What they refuse the certificate does not change.
pub(crate) fn judgement_with(
    terms: &Terms,
    certificate: &Certificate,
    user: &str,
    alone: Judgement,
) -> Judgement
    ensures { result ≡ judged_with (certificate_of certificate.now) user.now (terms_of terms.now)
        alone }
{
    let agreed = agree(
        terms.shown_command(),
        certificate.critical_options().get("force-command"),
    );
    let name = name_listed(certificate.valid_principals(), user, &terms.principals);
    judged_by(agreed, name.is_some(), alone)
}

/// What follows from whether the commands agree, and from whether the certificate is for somebody.
pub(crate) fn judged_by(agreed: bool, named: bool, alone: Judgement) -> Judgement
    ensures { result ≡ judged_by agreed named alone }
{
    match (alone, agreed, named) {
        (Judgement::Refuses(reason), _, _) => Judgement::Refuses(reason),
        (_, false, _) => Judgement::Refuses(Reason::Command),
        (_, true, false) => Judgement::Refuses(Reason::Principals),
        (Judgement::Allows, true, true) => Judgement::Allows,
        (Judgement::Unclear, true, true) => Judgement::Unclear,
    }
}
