//! Why a login by public key is refused, as numbers.

ghost use Rattle.std.specs.Prelude.{◌≡◌, ◌≢◌, ◌<◌};
ghost use Rattle.sshkey_c.specs.Refusals.{at_text, login_status, reason_status, refusal_of, said, signature_status, source_number, text_number};

use login_policy::LoginRefusal;
use publickey_login::{PublickeyRefusal, Source};
use sshkey_calls::number::{
    ELSEWHERE, KEY_NOT_ACCEPTED, LENGTH, MEMORY, NOT_NORMAL_FORM, OTHER_ALGORITHM, OTHER_REQUEST,
    UNTOUCHED, UNVERIFIED, certificate_error_status, error_status, refusal_status,
};
use sshkey_userauth::UserauthRefusal;
use user_keys::Reason;

/// The client's signature is none of the key's for this request.
pub(crate) const CLIENT_NOT_SIGNED: u32 = 84;
/// A touch or a verified user is required of a security key, and nobody tells its flags.
const NO_FLAGS: u32 = 85;
/// The bytes of the client's signature are none.
const NO_SIGNATURE: u32 = 86;
/// No line is for what is offered, and no authority lists the user.
const NOT_LISTED: u32 = 90;
/// The line's time is over.
const LINE_EXPIRED: u32 = 91;
/// The line has an option that is of no use there: principals, and its key is no authority's; of a
/// text of principals, cert-authority or principals.
const LINE_OPTION: u32 = 92;
/// The line is for other places.
const LINE_ELSEWHERE: u32 = 93;
/// The line and the certificate have two commands.
const LINE_COMMAND: u32 = 94;
/// The certificate lists nobody whom the line lets in.
const LINE_PRINCIPALS: u32 = 95;
/// Whether a line lets in cannot be told.
const UNCLEAR: u32 = 96;
/// A text could not be read.
const TEXT_UNREADABLE: u32 = 98;
/// Nobody has seen the client's signature.
pub(crate) const UNSIGNED: u32 = 104;
/// Whom an authority lets in is not told.
pub(crate) const NO_PRINCIPALS: u32 = 105;
/// The ticket is of other questions.
pub(crate) const OTHER_QUESTIONS: u32 = 106;

/// A text of authorized_keys.
const AUTHORIZED_KEYS: u32 = 1;
/// An authority, by a certificate that lists the user.
const AUTHORITY: u32 = 2;
/// An authority, by a text of principals.
const PRINCIPALS: u32 = 3;
/// What `AuthorizedKeysCommand` wrote.
const COMMAND: u32 = 4;

/// Why a login is refused, and by which line of which text; zeros where none is the reason.
#[derive(Clone, Copy)]
pub(crate) struct Refusal {
    pub number: u32,
    pub source: u32,
    pub text: usize,
    pub line: usize,
}

/// A refusal that no text is the reason of.
pub(crate) fn said(number: u32) -> Refusal
    ensures { result ≡ said number }
{
    Refusal {
        number,
        source: 0,
        text: 0,
        line: 0,
    }
}

/// A refusal by a line of a text; 0 where the whole text is the reason.
fn at_text(number: u32, source: Source, line: usize) -> Refusal
    ensures { result ≡ at_text number source line }
{
    Refusal {
        number,
        source: source_number(source),
        text: text_number(source),
        line,
    }
}

/// What is answered to a refusal, where the number of what is revoked is given.
pub(crate) fn refusal_of(refusal: PublickeyRefusal, of_revoked: u32) -> Refusal
    requires { 2 < of_revoked }
    ensures refusal { result ≡ refusal_of of_revoked refusal }
    ensures number { result.number ≢ 1 → 2 < result.number }
{
    match refusal {
        PublickeyRefusal::NoKey(error) => said(error_status(error)),
        PublickeyRefusal::UnacceptedKey => said(KEY_NOT_ACCEPTED),
        PublickeyRefusal::Revoked => said(of_revoked),
        PublickeyRefusal::NotListed => said(NOT_LISTED),
        PublickeyRefusal::NotAllowed {
            source,
            line,
            reason,
        } => at_text(reason_status(reason), source, line),
        PublickeyRefusal::Unclear { source, line } => at_text(UNCLEAR, source, line),
        PublickeyRefusal::Unreadable { source } => at_text(TEXT_UNREADABLE, source, 0),
        PublickeyRefusal::Certificate(refusal) => said(login_status(refusal, of_revoked)),
        PublickeyRefusal::Algorithm => said(OTHER_ALGORITHM),
        PublickeyRefusal::Signature(refusal) => said(signature_status(refusal)),
        PublickeyRefusal::NoSignature(_) => said(NO_SIGNATURE),
        PublickeyRefusal::TooLong => said(LENGTH),
        PublickeyRefusal::NoFlags => said(NO_FLAGS),
        PublickeyRefusal::NotSigned => said(CLIENT_NOT_SIGNED),
        PublickeyRefusal::Memory => said(MEMORY),
    }
}

/// The number of why a line refuses.
fn reason_status(reason: Reason) -> u32
    ensures number { result ≡ reason_status reason }
    ensures range { 2 < result }
{
    match reason {
        Reason::Expired => LINE_EXPIRED,
        Reason::MisplacedOption => LINE_OPTION,
        Reason::Elsewhere => LINE_ELSEWHERE,
        Reason::Command => LINE_COMMAND,
        Reason::Principals => LINE_PRINCIPALS,
    }
}

/// The number of a refusal, where the one of a certificate that is revoked is given.
fn login_status(refusal: LoginRefusal, of_revoked: u32) -> u32
    requires { 2 < of_revoked }
    ensures number { result ≡ login_status of_revoked refusal }
    ensures refused { result ≢ 1 → 2 < result }
{
    match refusal {
        LoginRefusal::Certificate(error) => certificate_error_status(error),
        LoginRefusal::NotNormalForm => NOT_NORMAL_FORM,
        LoginRefusal::UnacceptedKey => KEY_NOT_ACCEPTED,
        LoginRefusal::Revoked => of_revoked,
        LoginRefusal::Invalid(refusal) => refusal_status(Some(refusal)),
        LoginRefusal::Elsewhere => ELSEWHERE,
        LoginRefusal::Memory => MEMORY,
    }
}

/// The number of what is wrong with the client's signature.
fn signature_status(refusal: UserauthRefusal) -> u32
    ensures number { result ≡ signature_status refusal }
    ensures range { result ≢ 1 → 2 < result }
{
    match refusal {
        UserauthRefusal::SignedBytes | UserauthRefusal::Service => OTHER_REQUEST,
        UserauthRefusal::Algorithm => OTHER_ALGORITHM,
        UserauthRefusal::Touch => UNTOUCHED,
        UserauthRefusal::Verification => UNVERIFIED,
        UserauthRefusal::Key(error) => error_status(error),
        UserauthRefusal::Memory => MEMORY,
    }
}

/// The number of a source.
pub(crate) fn source_number(source: Source) -> u32
    ensures { result ≡ source_number source }
{
    match source {
        Source::AuthorizedKeys(_) => AUTHORIZED_KEYS,
        Source::Authority => AUTHORITY,
        Source::Principals(_) => PRINCIPALS,
        Source::Command(_) => COMMAND,
    }
}

/// The number of a text among its like.
pub(crate) fn text_number(source: Source) -> usize
    ensures { result ≡ text_number source }
{
    match source {
        Source::AuthorizedKeys(text) | Source::Principals(text) | Source::Command(text) => text,
        Source::Authority => 0,
    }
}
