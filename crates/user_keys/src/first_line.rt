//! The first line of authorized_keys that lets in.

ghost use Rattle.std.specs.Prelude.{◌≡◌, ◌≢◌, ◌≤◌, IfErr, IfOk, None, length};
ghost use Rattle.login_terms.specs.Options.{terms_of};
ghost use Rattle.user_keys.specs.Answers.{AsksOfLines, GrantsExactly, IsWhyNoLine, SaysOf};
ghost use Rattle.user_keys.specs.Spellings.{AreMarks, MaySpell, own_part};
ghost use Rattle.user_keys.specs.UserLogins.{GrantsFirst, IsAsStrict, JudgesLogin, credential_of, listed_key, login_of};
ghost use Rattle.user_keys.specs.declared.refusal.UserRefusal.TheVariants as refusal;

use crate::answer::{Judgement, LineVerdict, first_refused, refusal_for, verdict_of};
use crate::certificate::judgement_with;
use crate::credential::Credential;
use crate::grant::UserGrant;
use crate::line::{judge, terms_for};
use crate::login::UserLogin;
use crate::marks::Marks;
use crate::refusal::UserRefusal;
use crate::skip::skip_lines;
use crate::text::next_line;
use login_terms::{Reading, Terms};
use std::alloc::{AllocError, Global};

/// The first line that lets the key in, and its terms alone; or, with a certificate, the first of
/// its authority that lets the certificate in.
pub(crate) fn first_grant(
    alloc: Global,
    login: &UserLogin,
    credential: Credential,
) -> Result<UserGrant, UserRefusal>
    requires { 17 ≤ length (own_part (listed_key (credential_of credential))) }
    ensures exactly { GrantsExactly
        (GrantsFirst (login_of login.now) (credential_of credential.entry)) result }
    ensures by_key { IfOk result (λ g. g.certified ≡ None) }
    ensures as_strict { IfOk result
        (IsAsStrict (login_of login.now) (credential_of credential.entry)) }
    ensures refused { IfErr result (λ r. r ≢ refusal.Memory
        → IsWhyNoLine (login_of login.now) (credential_of credential.entry) r) }
    ensures asks { AsksOfLines (login_of login.now) (credential_of credential.entry) result }
{
    let marks = Marks::of(credential.listed_key());
    let mut refused = None;
    let (mut line, mut rest) = skip_lines(login.text, &marks);
    while let Some((text, more)) = next_line(rest) {
        line += 1;
        rest = more;
        match check_line(alloc, text, login, credential, &marks)? {
            LineVerdict::Lets(terms) => {
                return Ok(UserGrant {
                    line,
                    terms,
                    certified: None,
                });
            }
            LineVerdict::Unclear => return Err(UserRefusal::Unclear { line }),
            LineVerdict::Refuses(reason) => refused = first_refused(refused, line, reason),
            LineVerdict::Passes => {}
        }
    }
    Err(refusal_for(refused))
}

/// What a line says of the login. The marks are those of the key whose lines they are.
fn check_line(
    alloc: Global,
    line: &[u8],
    login: &UserLogin,
    credential: Credential,
    marks: &Marks,
) -> Result<LineVerdict, AllocError>
    requires part { 17 ≤ length (own_part (listed_key (credential_of credential))) }
    requires marks { AreMarks (own_part (listed_key (credential_of credential))) marks.now }
    ensures answer { IfOk result
        (SaysOf (login_of login.now) (credential_of credential.entry) line.now) }
    ensures asks { IfErr result
        (λ _. MaySpell (own_part (listed_key (credential_of credential.entry))) line.now) }
{
    let key = credential.listed_key();
    match terms_for(alloc, line, key, marks, credential.is_certificate())? {
        Reading::Is(terms) => {
            let judgement = check_login(alloc, &terms, login, credential)?;
            Ok(verdict_of(terms, judgement))
        }
        Reading::Rejected => Ok(LineVerdict::Passes),
        Reading::Unclear => Ok(LineVerdict::Unclear),
    }
}

/// What the terms of a line say of the login.
fn check_login(
    alloc: Global,
    terms: &Terms,
    login: &UserLogin,
    credential: Credential,
) -> Result<Judgement, AllocError>
    ensures { IfOk result (JudgesLogin (login_of login.now) (credential_of credential.entry)
        (terms_of terms.now)) }
{
    let alone = judge(alloc, terms, login)?;
    match credential {
        Credential::Key(_) => Ok(alone),
        Credential::Certificate(certificate) => {
            Ok(judgement_with(terms, certificate, login.user, alone))
        }
    }
}
