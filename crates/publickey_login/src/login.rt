//! Who logs in.

ghost use Rattle.openssh_limits.specs.Padding.{padding};
ghost use Rattle.std.specs.Prelude.{◌≡◌, ◌≢◌, IfErr};
ghost use Rattle.publickey_login.specs.Grants.{IsLogin, MayOffer, required_of};
ghost use Rattle.publickey_login.specs.Stops.{IsWhyNoLogin, IsWhyNotPending};
ghost use Rattle.publickey_login.specs.declared.refusal.PublickeyRefusal.TheVariants.{Memory};
ghost use Rattle.publickey_login.specs.Results.{GrantsExactly, OffersExactly, PendsExactly};
ghost use Rattle.publickey_login.specs.Signatures.{BySshd};
ghost use Rattle.publickey_login.specs.Values.{login_of, place_known, place_seen, signed_of};

use crate::grant::PublickeyGrant;
use crate::held::{Held, hold};
use crate::offer::Offer;
use crate::pending_login::Pending;
use crate::place::{Place, client_known};
use crate::refusal::PublickeyRefusal;
use crate::signed::{Signed, client_question};
use crate::trusted::Trusted;
use sshkey_keys::RawVerifier;
use sshkey_krl::Revocations;
use sshkey_userauth::Requirements;
use std::alloc::Global;

/// Lets in who holds the key that is offered, by itself or in a certificate, and has signed with it,
/// as sshd(8) does by its method publickey (RFC 4252, section 7), and says what the login is bound
/// to.
///
/// What is offered is a key or a certificate, such as sshd accepts, and not revoked. What lets it in
/// is the first of these, on its own terms (sshd_config(5)):
/// - the texts of `AuthorizedKeysFile`, each in its turn: the first line that is for the key, or
///   `cert-authority` for the key that signed the certificate, and allows the login
///   (`user_keys::log_in_by_key`, `user_keys::log_in_by_certificate`);
/// - an authority of `TrustedUserCAKeys`, for a certificate that lists the user; or, with texts of
///   `AuthorizedPrincipalsFile`, one of whose principals the first line that is for one lets in
///   (`user_keys::log_in_by_principal`);
/// - what `AuthorizedKeysCommand` wrote, as the texts of `AuthorizedKeysFile`.
///
/// One that refuses is passed over. A certificate also has to be such as `login_policy::log_in` lets
/// in, for that name and by that authority, which the lines of a text name themselves. The client's
/// signature is asked about here, over the bytes of its own request, or whoever has verified it is
/// named (`Signed`). The flags of a security key are what the server and the grant require.
///
/// Unless memory runs out, it fails with the first of these that fits:
/// - `NoKey`: the bytes are no key and no certificate;
/// - `UnacceptedKey`, for the key, or for that which signed the certificate;
/// - `Revoked`, for a key that is offered by itself;
/// - `Unclear` and `Unreadable`: nothing before that text or line lets in, and what it says cannot be
///   told;
/// - `NotAllowed`: nothing lets in, and a text that was asked has a line for it, which refuses: with
///   the first such line;
/// - `NotListed`: nothing lets in;
/// - `Certificate` with what `login_policy::log_in` fails with, but its signature;
/// - what `client_question` fails with;
/// - `Certificate` of `Invalid` with `Signature`: the authority's signature is none;
/// - `NotSigned`.
///
/// It is `pending`, and then the verifier's answers: so nobody is asked where anything else is wrong,
/// nor about the client's signature under what a stranger has certified.
pub fn log_in<R: Revocations, V: RawVerifier>(
    alloc: Global,
    offer: &Offer,
    signed: &Signed,
    trusted: &Trusted,
    place: &Place,
    revocations: &R,
    verifier: &V,
) -> Result<PublickeyGrant, PublickeyRefusal>
    ensures exactly { GrantsExactly (IsLogin (padding (V.accepts verifier.now))
        (login_of offer.now trusted.now (place_seen signed.now place.now)
        (R.revokes revocations.now) (R.revokes_key revocations.now))
        (signed_of signed.now)) result }
    ensures refused { IfErr result (λ r. r ≢ Memory → IsWhyNoLogin
        (padding (V.accepts verifier.now))
        (login_of offer.now trusted.now (place_seen signed.now place.now)
        (R.revokes revocations.now) (R.revokes_key revocations.now)) (signed_of signed.now) r) }
{
    let held = pending(alloc, offer, signed, trusted, place, revocations)?;
    held.decide_by(verifier)
}

/// All that `log_in` asks but the signatures: `Ok` exactly where it would let in if a verifier said
/// yes to each question, and then with the questions that are left, one for each signer. It fails
/// with what `log_in` fails with first.
pub fn pending<R: Revocations>(
    alloc: Global,
    offer: &Offer,
    signed: &Signed,
    trusted: &Trusted,
    place: &Place,
    revocations: &R,
) -> Result<Pending, PublickeyRefusal>
    ensures exactly { PendsExactly (login_of offer.now trusted.now
        (place_seen signed.now place.now)
        (R.revokes revocations.now) (R.revokes_key revocations.now)) (signed_of signed.now) result }
    ensures refused { IfErr result (λ r. r ≢ Memory → IsWhyNotPending
        (login_of offer.now trusted.now (place_seen signed.now place.now)
        (R.revokes revocations.now) (R.revokes_key revocations.now)) (signed_of signed.now) r) }
{
    let place = place_seen(signed, place);
    let Held {
        grant,
        authority,
        key,
        form,
    } = hold(alloc, offer, trusted, &place, revocations)?;
    let requirements = required_of(trusted, &grant);
    let client = client_question(alloc, offer, signed, requirements, key, form)?;
    Ok(Pending {
        grant,
        authority,
        client,
    })
}

/// Whether what is offered lets in whoever signs with it: the answer to the query without a
/// signature (RFC 4252, section 7). It grants nothing. It is `log_in` where sshd(8) verifies the
/// client's signature, but that an address that is left to the caller is `Client::Unknown` here: so
/// the verifier is asked about the authority's signature alone. Where it answers later or elsewhere,
/// ask `pending` so, and keep no grant.
///
/// It fails with what `log_in` fails with first, but for the client's signature: of what
/// `client_question` fails with only with `Algorithm`, for a name that is told and is none of the
/// key's.
pub fn may_offer<R: Revocations, V: RawVerifier>(
    alloc: Global,
    offer: &Offer,
    trusted: &Trusted,
    place: &Place,
    revocations: &R,
    verifier: &V,
) -> Result<(), PublickeyRefusal>
    ensures exactly { OffersExactly (MayOffer (padding (V.accepts verifier.now))
        (login_of offer.now trusted.now (place_known place.now)
        (R.revokes revocations.now) (R.revokes_key revocations.now))) result }
    ensures refused { IfErr result (λ r. r ≢ Memory → IsWhyNoLogin
        (padding (V.accepts verifier.now)) (login_of offer.now trusted.now (place_known place.now)
        (R.revokes revocations.now) (R.revokes_key revocations.now)) BySshd r) }
{
    let place = Place {
        client: client_known(place.client),
        ..*place
    };
    let signed = Signed::BySshd;
    match log_in(
        alloc,
        offer,
        &signed,
        trusted,
        &place,
        revocations,
        verifier,
    ) {
        Ok(_) => Ok(()),
        Err(refusal) => Err(refusal),
    }
}

/// What is required of the flags of a security key: by the server, or by the grant.
fn required_of(trusted: &Trusted, grant: &PublickeyGrant) -> Requirements
    ensures { result ≡ required_of trusted.now.requirements grant.now }
{
    let terms = &grant.user.terms;
    Requirements {
        touch_required: trusted.requirements.touch_required || terms.touch_required,
        verify_required: trusted.requirements.verify_required || terms.verify_required,
    }
}

/// The place as it counts for who has seen the signature.
fn place_seen<'a>(signed: &Signed, place: &Place<'a>) -> Place<'a>
    ensures { result ≡ place_seen signed.now place.now }
{
    let client = match signed {
        Signed::BySshd => place.client,
        Signed::Request { .. } | Signed::ByTransport { .. } => client_known(place.client),
    };
    Place { client, ..*place }
}
