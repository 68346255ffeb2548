//! A login with a rule of one's own.

ghost use Rattle.std.specs.Prelude.{◌≡◌, ◌≢◌, Err, IfErr, codes};
ghost use Rattle.publickey_login.specs.Grants.{IsLogin};
ghost use Rattle.publickey_login.specs.Results.{GrantsExactly};
ghost use Rattle.publickey_login.specs.Stops.{IsWhyNoLogin};
ghost use Rattle.publickey_login.specs.Values.{login_of, place_seen, signed_of};
ghost use Rattle.publickey_login.specs.declared.refusal.PublickeyRefusal.TheVariants.{Memory, NotListed};
ghost use Rattle.openssh_limits.specs.Padding.{padding};

use publickey_login::{Offer, Place, PublickeyGrant, PublickeyRefusal, Signed, Trusted, log_in};
use ssh_key::RawVerifier;
use ssh_key::revocation::Revocations;
use std::alloc::Global;

/// Grants what `log_in` grants, but nothing to root, as `PermitRootLogin no` of sshd_config(5).
pub fn log_in_without_root<R: Revocations, V: RawVerifier>(
    alloc: Global,
    offer: &Offer,
    signed: &Signed,
    trusted: &Trusted,
    place: &Place,
    revocations: &R,
    verifier: &V,
) -> Result<PublickeyGrant, PublickeyRefusal>
    ensures root { offer.now.user.now ≡ codes "root" → result ≡ Err NotListed }
    ensures others { let accepts = padding (V.accepts verifier.now) in
        let login = login_of offer.now trusted.now (place_seen signed.now place.now)
        (R.revokes revocations.now) (R.revokes_key revocations.now) in
        offer.now.user.now ≢ codes "root"
        → GrantsExactly (IsLogin accepts login (signed_of signed.now)) result
        × IfErr result (λ r. r ≢ Memory → IsWhyNoLogin accepts login (signed_of signed.now) r) }
{
    if offer.user == "root" {
        return Err(PublickeyRefusal::NotListed);
    }
    log_in(alloc, offer, signed, trusted, place, revocations, verifier)
}
