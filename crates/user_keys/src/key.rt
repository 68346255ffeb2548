//! Whether a key lets its holder in.

ghost use Rattle.std.specs.Prelude.{◌≡◌, ◌≢◌, IfErr, IfOk, IsTrue, None};
ghost use Rattle.openssh_limits.specs.Limits.{openssh_accepts_key};
ghost use Rattle.sshkey_keys.specs.Keys.{key_of};
ghost use Rattle.sshkey_model.specs.Keys.{IsKey};
ghost use Rattle.user_keys.specs.Answers.{AsksOfKey, GrantsExactly, IsWhyNoKey, IsWhyNoLine};
ghost use Rattle.user_keys.specs.UserLogins.{Admits, GrantsFirst, IsAsStrict, OfKey, login_of};
ghost use Rattle.user_keys.specs.declared.refusal.UserRefusal.TheVariants as refusal;

use crate::credential::Credential;
use crate::first_line::first_grant;
use crate::grant::UserGrant;
use crate::login::UserLogin;
use crate::refusal::UserRefusal;
use openssh_limits::openssh_accepts_key;
use sshkey_keys::KeyData;
use sshkey_krl::Revocations;
use std::alloc::Global;

/// Lets in who holds the key that is offered, if a line of the text of authorized_keys, as sshd(8) reads
/// it, has the key, is of no authority (`cert-authority`), and allows the place and the time. The
/// first such line counts, and the grant is what its options say: `login_terms` says of each option
/// whether sshd reads it, rejects the line, or whether that cannot be told.
///
/// A line that refuses is passed over, as is one that sshd rejects: that has an option that it does
/// not know, or a value that it does not read, or `command`, `from` or `principals` twice.
///
/// Unless memory runs out, it fails with the first of these that fits:
/// - `UnacceptedKey`;
/// - `Revoked`: `revocations` revokes the key;
/// - `Unclear`: a line may be for the key, or may allow the place and the time, and none before it
///   lets the key in;
/// - `NotAllowed`: lines are for the key, and each refuses it;
/// - `NotListed`.
///
/// So whatever sshd makes of what cannot be told here, it lets the key in by the line of the grant,
/// and on its terms; before 10.5 on these but for tunnels, which `restrict` left.
///
/// A time without `Z` cannot be told from 14 hours before the same time of UTC to 13 hours after
/// it. Where `from` has a fault (`sshkey_matching::FromFault`), its line cannot be told. A line may
/// be for the key, though it is no entry of it, where the key may be spelled in it: with white space
/// within its Base64, or other names and needless zeros before its point or its last number; or in
/// a line that is no UTF-8.
///
/// `Memory` means that a line may have the key, or that `revocations` had to be asked
/// (`Revocations::revokes_none`): other lines ask for none.
pub fn log_in_by_key<R: Revocations>(
    alloc: Global,
    login: &UserLogin,
    key: &KeyData,
    revocations: &R,
) -> Result<UserGrant, UserRefusal>
    requires { IsKey (key_of key.now) }
    ensures exactly { GrantsExactly
        (Admits (login_of login.now) (key_of key.now) (R.revokes_key revocations.now)) result }
    ensures as_strict { IfOk result (IsAsStrict (login_of login.now) (OfKey (key_of key.now))) }
    ensures refused { IfErr result (λ r. r ≢ refusal.Memory → IsWhyNoKey (login_of login.now)
        (key_of key.now) (R.revokes_key revocations.now) r) }
    ensures asks { AsksOfKey (login_of login.now) (key_of key.now)
        (R.revokes_none revocations.now) result }
{
    if !openssh_accepts_key(key, login.least_rsa_bits) {
        return Err(UserRefusal::UnacceptedKey);
    }
    let Ok(is_revoked) = revocations.is_key_revoked(alloc, key) else {
        return Err(UserRefusal::Memory);
    };
    if is_revoked {
        return Err(UserRefusal::Revoked);
    }
    first_grant(alloc, login, Credential::Key(key))
}

/// The first line of the text that lets the key in, and what its options say, as `log_in_by_key`
/// finds it; whether the key is revoked is not asked. sshd(8) accepts the key.
///
/// Unless memory runs out, it fails with `Unclear`, `NotAllowed` or `NotListed`, as `log_in_by_key`
/// does.
pub fn find_key_line(
    alloc: Global,
    login: &UserLogin,
    key: &KeyData,
) -> Result<UserGrant, UserRefusal>
    requires key { IsKey (key_of key.now) }
    requires accepted { IsTrue (openssh_accepts_key login.now.least_rsa_bits (key_of key.now)) }
    ensures exactly { GrantsExactly
        (GrantsFirst (login_of login.now) (OfKey (key_of key.now))) result }
    ensures by_key { IfOk result (λ g. g.certified ≡ None) }
    ensures refused { IfErr result (λ r. r ≢ refusal.Memory
        → IsWhyNoLine (login_of login.now) (OfKey (key_of key.now)) r) }
{
    first_grant(alloc, login, Credential::Key(key))
}
