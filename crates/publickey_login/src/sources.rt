//! By what a login is let in.

ghost use Rattle.std.specs.Prelude.{◌≡◌, IfErr, IfOk, IsTrue};
ghost use Rattle.openssh_limits.specs.Limits.{openssh_accepts_key};
ghost use Rattle.sshkey_cert.specs.Certificates.{certificate_of};
ghost use Rattle.sshkey_cert.specs.Validity.{fingerprints_of};
ghost use Rattle.sshkey_keys.specs.Keys.{key_of};
ghost use Rattle.sshkey_model.specs.Certificates.{IsCertificate};
ghost use Rattle.sshkey_model.specs.Keys.{IsKey};
ghost use Rattle.sshkey_model.specs.Refusals.{has_trusted_authority};
ghost use Rattle.publickey_login.specs.Sources.{Login, IsCertificateSource, IsKeySource};
ghost use Rattle.publickey_login.specs.Results.{AsksOf, Originates, OriginatesBy, OwnOrigin};
ghost use Rattle.publickey_login.specs.Stops.{IsWhyNoKeySource, IsWhyNoSource};
ghost use Rattle.publickey_login.specs.declared.refusal.PublickeyRefusal.TheVariants.{Memory};

use crate::grant::Source;
use crate::refusal::PublickeyRefusal;
use crate::search::{Origin, Sought, SourceVerdict, TextList, find_in, refusal_for};
use crate::trusted::{Principals, Trusted};
use login_terms::Terms;
use sshkey_cert::Certificate;
use sshkey_keys::{Fingerprint, KeyData};
use std::alloc::Global;
use user_keys::{NamedLine, UserGrant, UserLogin, name_listed};

/// What lets a key in.
pub(crate) fn key_origin(
    alloc: Global,
    login: &UserLogin,
    key: &KeyData,
    trusted: &Trusted,
) -> Result<Origin, PublickeyRefusal>
    requires key { IsKey (key_of key.now) }
    requires accepted { IsTrue (openssh_accepts_key login.now.least_rsa_bits (key_of key.now)) }
    ensures { (l : Login) → AsksOf l login.now trusted.now
        → Originates (IsKeySource l (key_of key.now)) (IsWhyNoKeySource l (key_of key.now))
        result }
{
    let texts = trusted.authorized_keys;
    let sought = Sought::KeyLine(key);
    let files = match find_in(alloc, texts, TextList::AuthorizedKeys, login, sought)? {
        SourceVerdict::Lets(origin) => return Ok(origin),
        SourceVerdict::Passes(first) => first,
    };
    let texts = trusted.command_keys;
    match find_in(alloc, texts, TextList::Command, login, sought)? {
        SourceVerdict::Lets(origin) => Ok(origin),
        SourceVerdict::Passes(first) => Err(refusal_for(files.or(first))),
    }
}

/// What lets a certificate in.
pub(crate) fn certificate_origin(
    alloc: Global,
    login: &UserLogin,
    certificate: &Certificate,
    trusted: &Trusted,
) -> Result<Origin, PublickeyRefusal>
    requires certificate { IsCertificate (certificate_of certificate.now) }
    requires accepted { IsTrue (openssh_accepts_key 0
        (certificate_of certificate.now).signed.signature_key) }
    ensures { (l : Login) → AsksOf l login.now trusted.now
        → Originates (IsCertificateSource l (certificate_of certificate.now))
        (IsWhyNoSource l (certificate_of certificate.now)) result }
{
    let sought = Sought::AuthorityLine(certificate);
    let texts = trusted.authorized_keys;
    let files = match find_in(alloc, texts, TextList::AuthorizedKeys, login, sought)? {
        SourceVerdict::Lets(origin) => return Ok(origin),
        SourceVerdict::Passes(first) => first,
    };
    let authority = match authority_origin(alloc, login, certificate, trusted)? {
        SourceVerdict::Lets(origin) => return Ok(origin),
        SourceVerdict::Passes(first) => first,
    };
    let texts = trusted.command_keys;
    match find_in(alloc, texts, TextList::Command, login, sought)? {
        SourceVerdict::Lets(origin) => Ok(origin),
        SourceVerdict::Passes(first) => Err(refusal_for(files.or(authority.or(first)))),
    }
}

/// What the authorities say of a certificate.
fn authority_origin(
    alloc: Global,
    login: &UserLogin,
    certificate: &Certificate,
    trusted: &Trusted,
) -> Result<SourceVerdict, PublickeyRefusal>
    ensures { (l : Login) → AsksOf l login.now trusted.now
        → OriginatesBy l (certificate_of certificate.now) result }
{
    if !is_trusted(alloc, certificate, trusted.authorities)? {
        return Ok(SourceVerdict::Passes(None));
    }
    match trusted.principals {
        Principals::InCertificate => own_origin(alloc, login.user, certificate),
        Principals::Files(texts) => {
            let sought = Sought::PrincipalLine(certificate);
            find_in(alloc, texts, TextList::Principals, login, sought)
        }
    }
}

/// Whether one of the authorities signed the certificate.
fn is_trusted(
    alloc: Global,
    certificate: &Certificate,
    authorities: &[Fingerprint],
) -> Result<bool, PublickeyRefusal>
    ensures said { IfOk result (λ yes. yes ≡ has_trusted_authority
        (fingerprints_of authorities.now) (certificate_of certificate.now)) }
    ensures memory { IfErr result (λ r. r ≡ Memory) }
{
    match certificate.trusted_by(alloc, authorities) {
        Ok(trusted) => Ok(trusted.is_some()),
        Err(_) => Err(PublickeyRefusal::Memory),
    }
}

/// What a certificate says alone, if it lists the user.
fn own_origin(
    alloc: Global,
    user: &str,
    certificate: &Certificate,
) -> Result<SourceVerdict, PublickeyRefusal>
    ensures { OwnOrigin user.now (certificate_of certificate.now) result }
{
    let Some(name) = name_listed(certificate.valid_principals(), user, &None) else {
        return Ok(SourceVerdict::Passes(None));
    };
    let name = String::from_str(alloc, name)?;
    let mut terms = Terms::none(alloc);
    terms.touch_required = false;
    let first = UserGrant {
        line: 0,
        terms,
        certified: None,
    };
    Ok(SourceVerdict::Lets(Origin {
        source: Source::Authority,
        line: NamedLine { first, name },
    }))
}
