//! Whether a certificate lets its holder in, by an authority that is trusted for all users and by a
//! file of principals.

ghost use Rattle.std.specs.List.{Any};
ghost use Rattle.std.specs.Prelude.{◌≡◌, ◌≢◌, IfErr, IfOk, IsTrue, option_map};
ghost use Rattle.sshkey_entries.specs.Answers.{Tells};
ghost use Rattle.login_terms.specs.Options.{terms_of};
ghost use Rattle.sshkey_cert.specs.Certificates.{certificate_of};
ghost use Rattle.sshkey_cert.specs.Validity.{fingerprints_of};
ghost use Rattle.openssh_limits.specs.Padding.{padding};
ghost use Rattle.user_keys.specs.Answers.{GrantsExactly};
ghost use Rattle.user_keys.specs.CertificateLogins.{FindsLine};
ghost use Rattle.user_keys.specs.Principals.{AdmitsPrincipal, ChecksTerms, FindsDecision, IsAsStrictInPlace, IsPrincipalLine, IsWhyNoPrincipal, IsWhyUndecided, NeedsMemoryInPlace, judged_in_place, login_in_place, principal_login, DecidesBy, MayDecideBy, is_principal, lines_at_feeds, names_principal};
ghost use Rattle.user_keys.specs.UserLogins.{login_of};
ghost use Rattle.user_keys.specs.declared.refusal.UserRefusal.TheVariants as refusal;

use crate::answer::Judgement;
use crate::certificate::judged_by;
use crate::grant::{NamedLine, UserGrant};
use crate::line::judge;
use crate::login::UserLogin;
use crate::merge::{agree, merged};
use crate::names::{is_listed, listed_as};
use crate::options::read_terms;
use crate::policy::{log_in_as, read_certificate};
use crate::principal_line::PrincipalLine;
use crate::refusal::{Reason, UserRefusal};
use crate::text::split_line;
use login_terms::{Reading, Terms};
use sshkey_cert::Certificate;
use sshkey_cert::laws::one_certificate;
use sshkey_keys::{Fingerprint, RawVerifier};
use sshkey_krl::Revocations;
use std::alloc::{AllocError, Global};

/// Lets in who holds the key that is certified, if the bytes are a certificate, and a line of the
/// text, as sshd(8) reads the file that AuthorizedPrincipalsFile names (sshd_config(5)), is for a
/// principal that it lists, and allows the certificate, the place and the time. The authorities are
/// those of TrustedUserCAKeys, by the SHA-256 fingerprints of their keys. The certificate is judged
/// as by `login_policy::log_in`, with these, for that principal: the user is not asked about. The
/// grant is what the line and the certificate say together, as of `log_in_by_certificate`.
///
/// The first line for such a principal decides: if it refuses, no other lets in, of another file
/// neither. So ask about one file after the other as long as the answer is `NotListed`. A line
/// whose options sshd rejects is passed over.
///
/// A line is a name, or options and a name, which stands after its last space, or else after its
/// last tab. It ends at a `#`, also at one within quotes, and only a line feed divides lines: a
/// carriage return belongs to the name. Names are compared byte by byte, and a line for a principal
/// is `Unclear` where it is no UTF-8 up to a `#`.
///
/// Unless memory runs out, it fails with the first of these that fits:
/// - `Certificate` with `login_policy::LoginRefusal::Certificate`: the bytes are no certificate;
/// - `UnacceptedKey`: sshd accepts no key of the kind or the size of that which signed it;
/// - `NotListed`: no line is for a principal;
/// - `Unclear`: the first that is or may be so may be read, or may allow the certificate;
/// - `NotAllowed`: it refuses the certificate;
/// - `Certificate`: it lets the certificate in, and `log_in` refuses it, for its signature last.
///
/// So whatever sshd makes of what cannot be told here, it lets the certificate in by the line of
/// the grant, and on its terms.
///
/// `Memory` means that the bytes need memory to be read (`Certificate::from_bytes`), or that a line
/// is for a principal: other lines ask for none.
pub fn log_in_by_principal<R: Revocations, V: RawVerifier>(
    alloc: Global,
    login: &UserLogin,
    certificate: &[u8],
    authorities: &[Fingerprint],
    revocations: &R,
    verifier: &V,
) -> Result<UserGrant, UserRefusal>
    ensures exactly { GrantsExactly (AdmitsPrincipal (principal_login login.now certificate.now
        (padding (V.accepts verifier.now)) (R.revokes revocations.now))
        (fingerprints_of authorities.now)) result }
    ensures as_strict { IfOk result (IsAsStrictInPlace (principal_login login.now certificate.now
        (padding (V.accepts verifier.now)) (R.revokes revocations.now))) }
    ensures refused { IfErr result (λ r. r ≢ refusal.Memory
        → IsWhyNoPrincipal (principal_login login.now certificate.now
        (padding (V.accepts verifier.now)) (R.revokes revocations.now))
        (fingerprints_of authorities.now) r) }
    ensures asks { IfErr result (λ r. r ≡ refusal.Memory
        → NeedsMemoryInPlace (principal_login login.now certificate.now
        (padding (V.accepts verifier.now)) (R.revokes revocations.now))) }
{
    one_certificate();
    let read = read_certificate(alloc, certificate)?;
    let Decision { first, name } = match first_principal(alloc, login.text, &read) {
        Ok(decision) => decision,
        Err(refusal) => return Err(refusal),
    };
    // the name is a principal's
    let Some(name) = listed_as(read.valid_principals(), name) else {
        return Err(UserRefusal::NotListed);
    };
    check_terms(alloc, &first, login, &read)?;
    let granted = log_in_as(
        alloc,
        login,
        certificate,
        name,
        authorities,
        revocations,
        verifier,
    )?;
    Ok(merged(first, granted))
}

/// The first line of the text that is for a principal of the certificate, and that name, if it
/// allows the certificate, the place and the time, as `log_in_by_principal` finds it; the rest of
/// the certificate is not asked about.
///
/// Unless memory runs out, it fails with `NotListed`, `Unclear` or `NotAllowed`, as
/// `log_in_by_principal` does.
pub fn find_principal_line(
    alloc: Global,
    login: &UserLogin,
    certificate: &Certificate,
) -> Result<NamedLine, UserRefusal>
    ensures exactly { FindsLine (IsPrincipalLine (login_in_place login.now)
        (certificate_of certificate.now)) result }
    ensures refused { IfErr result (λ r. r ≢ refusal.Memory
        → IsWhyUndecided (login_in_place login.now) (certificate_of certificate.now) r) }
{
    let Decision { first, name } = match first_principal(alloc, login.text, certificate) {
        Ok(decision) => decision,
        Err(refusal) => return Err(refusal),
    };
    // the name is a principal's
    let Some(name) = listed_as(certificate.valid_principals(), name) else {
        return Err(UserRefusal::NotListed);
    };
    check_terms(alloc, &first, login, certificate)?;
    let name = String::from_str(alloc, name)?;
    Ok(NamedLine { first, name })
}

/// The line that decides, and the principal that it is for.
#[derive(Drop)]
struct Decision<'a> {
    first: UserGrant,
    name: &'a [u8],
}

/// The first line for a principal of the certificate.
fn first_principal<'a>(
    alloc: Global,
    text: &'a [u8],
    certificate: &Certificate,
) -> Result<Decision<'a>, UserRefusal>
    ensures exactly { FindsDecision (certificate_of certificate.now) (lines_at_feeds text.now)
        result }
    ensures asks { IfErr result (λ r. r ≡ refusal.Memory
        → Any (λ line. IsTrue (names_principal (certificate_of certificate.now) line))
        (lines_at_feeds text.now)) }
{
    let mut rest = text;
    let mut line = 0;
    'lines: loop {
        line += 1;
        let (text, more) = split_line(rest);
        let entry = PrincipalLine::of(text);
        match decide(alloc, &entry, certificate)? {
            Reading::Is(terms) => {
                return Ok(Decision {
                    first: UserGrant {
                        line,
                        terms,
                        certified: None,
                    },
                    name: entry.name,
                });
            }
            Reading::Unclear => return Err(UserRefusal::Unclear { line }),
            Reading::Rejected => {}
        }
        let Some(next) = more else {
            return Err(UserRefusal::NotListed);
        };
        rest = next;
    }
}

/// What the options of a line say, if it is for a principal of the certificate.
fn decide(
    alloc: Global,
    line: &PrincipalLine,
    certificate: &Certificate,
) -> Result<Reading<Terms>, AllocError>
    ensures answer { IfOk result (Tells terms_of
        (DecidesBy (certificate_of certificate.now) line.now.name.now
        (option_map (λ o. o.now) line.now.options))
        (MayDecideBy (certificate_of certificate.now) line.now.name.now
        (option_map (λ o. o.now) line.now.options))) }
    ensures asks { IfErr result (λ _. IsTrue
        (is_principal (certificate_of certificate.now) line.now.name.now)) }
{
    if line.name.is_empty() || !is_listed(certificate.valid_principals(), line.name) {
        return Ok(Reading::Rejected);
    }
    let Some(options) = line.options else {
        return Ok(Reading::Unclear);
    };
    read_terms(alloc, options)
}

/// Whether the terms of the line that decides allow the certificate; else why not.
fn check_terms(
    alloc: Global,
    first: &UserGrant,
    login: &UserLogin,
    certificate: &Certificate,
) -> Result<(), UserRefusal>
    ensures { ChecksTerms (login_of login.now) (certificate_of certificate.now)
        first.now.line (terms_of first.now.terms) result }
{
    let line = first.line;
    let alone = judge(alloc, &first.terms, login)?;
    match judged_in_place(&first.terms, certificate, alone) {
        Judgement::Allows => Ok(()),
        Judgement::Refuses(reason) => Err(UserRefusal::NotAllowed { line, reason }),
        Judgement::Unclear => Err(UserRefusal::Unclear { line }),
    }
}

/// What the terms of a line say of a login by the certificate, of which they say that alone.
fn judged_in_place(terms: &Terms, certificate: &Certificate, alone: Judgement) -> Judgement
    ensures { result ≡ judged_in_place (certificate_of certificate.now) (terms_of terms.now) alone }
{
    if terms.is_authority {
        return Judgement::Refuses(Reason::MisplacedOption);
    }
    let agreed = agree(
        terms.shown_command(),
        certificate.critical_options().get("force-command"),
    );
    judged_by(agreed, true, alone)
}
