//! A login by public key, of which all is right but the signatures.

ghost use Rattle.std.specs.Prelude.{◌≡◌, ◌≢◌, ◌<◌, IfErr};
ghost use Rattle.publickey_login.specs.Values.{signed_of};
ghost use Rattle.sshkey_c.specs.Logins.{AreTexts, Pends, PendsAt};
ghost use Rattle.sshkey_entry_calls.specs.Addresses.{IsNameIn};

use crate::login::{LoginParts, named_algorithm, requirements_in};
use crate::refusal::{NO_PRINCIPALS, Refusal, refusal_of, said};
use crate::sources::Sources;
use login_policy::Client;
use publickey_login::{Offer, Pending, Place, Signed, Trusted, pending};
use sshkey_calls::number::{MEMORY, TEXT};
use std::alloc::Global;
use std::str;

/// What is pending of the login (`publickey_login::pending`), where that has seen the signature and
/// the client is there. Memory is taken only where the names of user and host are UTF-8.
pub(crate) fn pend(
    alloc: Global,
    login: &LoginParts<'_>,
    signed: &Signed<'_>,
    client: Client,
) -> Result<Pending, Refusal>
    ensures verdict { Pends login.now (signed_of signed.now) client result }
    ensures range { IfErr result (λ r. r.number ≢ 1 → 2 < r.number) }
    ensures memory { IfErr result (λ r. r.number ≡ 1 → AreTexts login.now) }
{
    let (Ok(user), Ok(host)) = (
        str::from_utf8(login.offer.user),
        str::from_utf8(login.place.host),
    ) else {
        return Err(said(TEXT));
    };
    let place = Place {
        client,
        host: name_of(host),
        unix_timestamp: login.place.unix_timestamp,
    };
    pend_at(alloc, login, user, signed, &place)
}

/// The same of a user's name, and of a place that was read.
fn pend_at(
    alloc: Global,
    login: &LoginParts<'_>,
    user: &str,
    signed: &Signed<'_>,
    place: &Place<'_>,
) -> Result<Pending, Refusal>
    ensures verdict { user.now ≡ login.now.offer.user.now
        → PendsAt login.now (signed_of signed.now) place.now result }
    ensures range { IfErr result (λ r. r.number ≢ 1 → 2 < r.number) }
{
    let Ok(sources) = Sources::read(alloc, &login.trusted) else {
        return Err(said(MEMORY));
    };
    let Some(principals) = sources.principals_from(login.trusted.principals_from) else {
        return Err(said(NO_PRINCIPALS));
    };
    let offer = Offer {
        user,
        algorithm: named_algorithm(&login.offer),
        blob: login.offer.blob,
    };
    let trusted = Trusted {
        authorized_keys: &sources.authorized_keys,
        authorities: &sources.authorities,
        principals,
        command_keys: &sources.command_keys,
        least_rsa_bits: login.trusted.least_rsa_bits,
        requirements: requirements_in(&login.trusted),
    };
    match pending(alloc, &offer, signed, &trusted, place, &sources.revoked) {
        Ok(held) => Ok(held),
        Err(refusal) => Err(refusal_of(refusal, sources.revoked.revoked_status())),
    }
}

/// The name of a host, if it has one.
pub(crate) fn name_of(host: &str) -> Option<&str>
    ensures { IsNameIn host.now result }
{
    if host.is_empty() { None } else { Some(host) }
}
