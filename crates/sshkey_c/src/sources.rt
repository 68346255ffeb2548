//! Whom a server trusts, as it was read.

ghost use Rattle.std.specs.Prelude.{◌≡◌, IfOk, MatchOption, map};
ghost use Rattle.publickey_login.specs.Values.{principals_of, text_of};
ghost use Rattle.sshkey_calls.specs.Validations.{authorities_of};
ghost use Rattle.sshkey_cert.specs.Validity.{fingerprints_of};
ghost use Rattle.sshkey_entry_calls.specs.Revocations.{AreReadOf, reads_of};
ghost use Rattle.sshkey_c.specs.Logins.{principals_from, text_in, texts_in};

use crate::login::{TextParts, TrustedParts};
use publickey_login::{Principals, Text};
use sshkey_base::Result;
use sshkey_calls::Sha256Digest;
use sshkey_entry_calls::RevocationFiles;
use sshkey_keys::Fingerprint;
use std::alloc::Global;

/// An authority lets in the users that the certificate lists.
const IN_CERTIFICATE: u32 = 1;
/// It lets in those for whom texts have one of its names.
const IN_FILES: u32 = 2;

/// What a server trusts, as values of `publickey_login` borrow it.
#[derive(Drop)]
pub(crate) struct Sources<'a> {
    pub authorized_keys: Vec<Text<'a>>,
    pub authorities: Vec<Fingerprint>,
    pub principals: Vec<Text<'a>>,
    pub command_keys: Vec<Text<'a>>,
    pub revoked: RevocationFiles<'a>,
}

impl<'a> Sources<'a> {
    /// Reads them. Fails only when out of memory.
    pub fn read(alloc: Global, trusted: &TrustedParts<'a>) -> Result<Sources<'a>>
        ensures texts { IfOk result
            (λ it. map text_of it.authorized_keys.items
            ≡ texts_in trusted.now.authorized_keys.now) }
        ensures principals { IfOk result
            (λ it. map text_of it.principals.items ≡ texts_in trusted.now.principals.now) }
        ensures command { IfOk result
            (λ it. map text_of it.command_keys.items ≡ texts_in trusted.now.command_keys.now) }
        ensures authorities { IfOk result
            (λ it. fingerprints_of it.authorities.items
            ≡ authorities_of trusted.now.authorities.now) }
        ensures revoked { IfOk result
            (λ it. AreReadOf trusted.now.revoked.now (reads_of it.revoked)) }
    {
        Ok(Sources {
            authorized_keys: texts_in(alloc, trusted.authorized_keys)?,
            authorities: fingerprints(alloc, trusted.authorities)?,
            principals: texts_in(alloc, trusted.principals)?,
            command_keys: texts_in(alloc, trusted.command_keys)?,
            revoked: RevocationFiles::read(alloc, trusted.revoked)?,
        })
    }

    /// Whom an authority lets in, if that is told.
    pub fn principals_from(&self, how: u32) -> Option<Principals<'_>>
        ensures { MatchOption result (principals_from how (map text_of self.now.principals.items)
            ≡ None) (λ p. principals_from how (map text_of self.now.principals.items)
            ≡ Some (principals_of p)) }
    {
        match how {
            IN_CERTIFICATE => Some(Principals::InCertificate),
            IN_FILES => Some(Principals::Files(&self.principals)),
            _ => None,
        }
    }
}

/// The texts. Fails only when out of memory.
fn texts_in<'a>(alloc: Global, parts: &[TextParts<'a>]) -> Result<Vec<Text<'a>>>
    ensures { IfOk result (λ found. map text_of found.items ≡ texts_in parts.now) }
{
    let mut found = Vec::new(alloc);
    for part in parts {
        found.push(text_in(part))?;
    }
    Ok(found)
}

/// The text, or that it could not be read.
fn text_in<'a>(part: &TextParts<'a>) -> Text<'a>
    ensures { text_of result ≡ text_in part.now }
{
    if part.is_read == 1 {
        return Text::Read(part.text);
    }
    Text::Unreadable
}

/// The fingerprints with these digests. Fails only when out of memory.
pub(crate) fn fingerprints(alloc: Global, digests: &[Sha256Digest]) -> Result<Vec<Fingerprint>>
    ensures { IfOk result (λ found. fingerprints_of found.items ≡ authorities_of digests.now) }
{
    let mut found = Vec::new(alloc);
    for digest in digests {
        found.push(Fingerprint::Sha256(digest.bytes))?;
    }
    Ok(found)
}
