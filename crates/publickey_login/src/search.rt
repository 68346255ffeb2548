//! The first text that lets in, or refuses.

ghost use Rattle.std.specs.Prelude.{◌≡◌, map};
ghost use Rattle.publickey_login.specs.Results.{CanSeek, FindsText, SearchesIn, SearchesText, asked_of, decides_alone};
ghost use Rattle.publickey_login.specs.Stops.{refusal_for, source_in};
ghost use Rattle.publickey_login.specs.Values.{sought_of, text_of};

use crate::grant::Source;
use crate::refusal::PublickeyRefusal;
use crate::trusted::Text;
use sshkey_cert::Certificate;
use sshkey_keys::KeyData;
use std::alloc::Global;
use user_keys::{
    NamedLine, Reason, UserLogin, UserRefusal, find_authority_line, find_key_line,
    find_principal_line,
};

/// What is sought in texts.
#[derive(Clone, Copy)]
pub(crate) enum Sought<'a> {
    /// A line of the key that is offered.
    KeyLine(&'a KeyData),
    /// A line of the certificate's authority.
    AuthorityLine(&'a Certificate),
    /// A line for one of the certificate's principals.
    PrincipalLine(&'a Certificate),
}

/// A line that is for it, and refuses.
#[derive(Clone, Copy)]
pub(crate) struct LineRefusal {
    pub source: Source,
    pub line: usize,
    pub reason: Reason,
}

/// What a text says.
#[derive(Drop)]
enum TextVerdict {
    /// That line lets in.
    Lets(NamedLine),
    /// Each line that is for it refuses, that one first.
    Refuses(LineRefusal),
    /// No line is for it.
    Passes,
}

/// Whose texts they are.
#[derive(Clone, Copy)]
pub(crate) enum TextList {
    AuthorizedKeys,
    Principals,
    Command,
}

impl TextList {
    /// The text of that number.
    fn source(self, number: usize) -> Source
        ensures { result ≡ source_in self number }
    {
        match self {
            TextList::AuthorizedKeys => Source::AuthorizedKeys(number),
            TextList::Principals => Source::Principals(number),
            TextList::Command => Source::Command(number),
        }
    }
}

/// By what a login is let in, and what that says.
#[derive(Drop)]
pub(crate) struct Origin {
    pub source: Source,
    pub line: NamedLine,
}

/// What the sources of one kind say.
#[derive(Drop)]
pub(crate) enum SourceVerdict {
    /// That lets in.
    Lets(Origin),
    /// Nothing does, and what comes after them is asked. This refuses first, if anything.
    Passes(Option<LineRefusal>),
}

/// What the texts say: the first that lets in counts. The list says whose texts they are.
pub(crate) fn find_in(
    alloc: Global,
    texts: &[Text],
    list: TextList,
    login: &UserLogin,
    sought: Sought,
) -> Result<SourceVerdict, PublickeyRefusal>
    requires { CanSeek login.now (sought_of sought) }
    ensures { SearchesIn (asked_of login.now) (sought_of sought.entry) list
        (map text_of texts.now) result }
{
    let mut first = None;
    for (number, text) in texts.iter().enumerate() {
        let source = list.source(number);
        match text {
            Text::Read(text) => match find(alloc, text, source, login, sought)? {
                TextVerdict::Lets(line) => {
                    return Ok(SourceVerdict::Lets(Origin { source, line }));
                }
                TextVerdict::Refuses(refused) => {
                    first = first.or(Some(refused));
                    if decides_alone(sought) {
                        return Ok(SourceVerdict::Passes(first));
                    }
                }
                TextVerdict::Passes => {}
            },
            Text::Unreadable => return Err(PublickeyRefusal::Unreadable { source }),
        }
    }
    Ok(SourceVerdict::Passes(first))
}

/// What a text says, which is that source.
fn find(
    alloc: Global,
    text: &[u8],
    source: Source,
    login: &UserLogin,
    sought: Sought,
) -> Result<TextVerdict, PublickeyRefusal>
    requires { CanSeek login.now (sought_of sought) }
    ensures { SearchesText (asked_of login.now) (sought_of sought.entry) source text.now
        result }
{
    match find_line(alloc, &UserLogin { text, ..*login }, sought) {
        Ok(line) => Ok(TextVerdict::Lets(line)),
        Err(UserRefusal::NotListed) => Ok(TextVerdict::Passes),
        Err(UserRefusal::NotAllowed { line, reason }) => Ok(TextVerdict::Refuses(LineRefusal {
            source,
            line,
            reason,
        })),
        Err(UserRefusal::Unclear { line }) => Err(PublickeyRefusal::Unclear { source, line }),
        Err(UserRefusal::UnacceptedKey) => Err(PublickeyRefusal::UnacceptedKey),
        Err(UserRefusal::Revoked) => Err(PublickeyRefusal::Revoked),
        Err(UserRefusal::Certificate(refusal)) => Err(PublickeyRefusal::Certificate(refusal)),
        Err(UserRefusal::Memory) => Err(PublickeyRefusal::Memory),
    }
}

/// Whether the first text that has a line for it decides, as for a principal, and no later one is
/// asked.
fn decides_alone(sought: Sought) -> bool
    ensures { result ≡ decides_alone (sought_of sought.entry) }
{
    match sought {
        Sought::KeyLine(_) | Sought::AuthorityLine(_) => false,
        Sought::PrincipalLine(_) => true,
    }
}

/// The line of the login's text that lets in.
fn find_line(alloc: Global, login: &UserLogin, sought: Sought) -> Result<NamedLine, UserRefusal>
    requires { CanSeek login.now (sought_of sought) }
    ensures { FindsText (asked_of login.now) (sought_of sought.entry) login.now.text.now result }
{
    match sought {
        Sought::KeyLine(key) => match find_key_line(alloc, login, key) {
            Ok(first) => Ok(NamedLine {
                first,
                name: String::new(alloc),
            }),
            Err(refusal) => Err(refusal),
        },
        Sought::AuthorityLine(certificate) => find_authority_line(alloc, login, certificate),
        Sought::PrincipalLine(certificate) => find_principal_line(alloc, login, certificate),
    }
}

/// Why nothing lets in, where that refuses first.
pub(crate) fn refusal_for(first: Option<LineRefusal>) -> PublickeyRefusal
    ensures { result ≡ refusal_for first }
{
    match first {
        Some(refused) => PublickeyRefusal::NotAllowed {
            source: refused.source,
            line: refused.line,
            reason: refused.reason,
        },
        None => PublickeyRefusal::NotListed,
    }
}
