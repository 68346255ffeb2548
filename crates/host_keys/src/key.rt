//! Whether a key is the host's.

ghost use Rattle.std.specs.Prelude.{◌≡◌, IfErr, true};
ghost use Rattle.sshkey_matching.specs.FromLists.{is_like_address};
ghost use Rattle.sshkey_keys.specs.Keys.{key_of};
ghost use Rattle.host_keys.specs.Answers.{AsksOf, IsWhyNoKey, OkExactly, RefusesHostKey};
ghost use Rattle.host_keys.specs.Hosts.{IsHostKey, IsTrustedKey, lines_of, login_of};

use crate::host_check::HostCheck;
use crate::refusal::{HostRefusal, answer};
use crate::verdict::key_verdict;
use openssh_limits::openssh_accepts_key;
use sshkey_keys::KeyData;
use sshkey_known_hosts::HostHasher;
use sshkey_known_hosts::laws::one_verdict;
use sshkey_krl::Revocations;
use std::alloc::Global;

/// Accepts the key that a host shows if the texts of known_hosts, as OpenSSH reads them, list the
/// key for the host at that port, and revoke it in no line for it
/// (`sshkey_known_hosts::key_verdict`). `revocations`, such as the list of `RevokedHostKeys`
/// (ssh_config(5)), must not revoke it either, and ssh(1) has to accept its kind and size
/// (`openssh_limits::openssh_accepts_key`).
///
/// An address is asked about in its canonical text (`sshkey_matching::asked_host`).
///
/// Unless memory runs out, it fails with the first of these that fits:
/// - `Host`: the port is 0, the host is empty, or it is like an address and has no text as one;
/// - `Revoked`: `revocations` or a line revokes the key;
/// - `Unreadable`: a line that can't be read could be one for the host;
/// - `Changed`: other keys are listed for the host, and not this one;
/// - `Unknown`: no key is listed for it;
/// - `UnacceptedKey`.
///
/// If it would refuse a host at another port than 22 with `Unknown`, it asks, as ssh(1) does, all
/// the texts about the host's plain name, and that answer is the answer.
///
/// It allocates only if a text has a line, `revocations` has to be asked
/// (`Revocations::revokes_none`) or the host is like an address.
pub fn check_key<H: HostHasher, R: Revocations>(
    alloc: Global,
    login: &HostCheck,
    key: &KeyData,
    hmac: &H,
    revocations: &R,
) -> Result<(), HostRefusal>
    ensures exactly { OkExactly (IsHostKey (login_of login.now (H.hmac hmac.now))
        (R.revokes_key revocations.now) (key_of key.now)) result }
    ensures refused { IfErr result (RefusesHostKey (login_of login.now (H.hmac hmac.now))
        (R.revokes_key revocations.now) (key_of key.now)) }
    ensures asks { AsksOf (is_like_address login.now.host.now ≡ true)
        (R.revokes_none revocations.now) (lines_of login.now.texts.now) result }
{
    let asked = login.asked(alloc)?;
    let login = login.under(asked.as_str());
    check_asked(alloc, &login, key, hmac, revocations)
}

/// The same of a host under the name that is asked.
pub(crate) fn check_asked<H: HostHasher, R: Revocations>(
    alloc: Global,
    login: &HostCheck,
    key: &KeyData,
    hmac: &H,
    revocations: &R,
) -> Result<(), HostRefusal>
    ensures exactly { OkExactly (IsTrustedKey (login_of login.now (H.hmac hmac.now))
        (R.revokes_key revocations.now) (key_of key.now)) result }
    ensures refused { IfErr result (IsWhyNoKey (login_of login.now (H.hmac hmac.now))
        (R.revokes_key revocations.now) (key_of key.now)) }
    ensures asks { AsksOf ⊥ (R.revokes_none revocations.now) (lines_of login.now.texts.now)
        result }
{
    one_verdict();
    let revoked = revocations.is_key_revoked(alloc, key);
    let said = key_verdict(alloc, login.texts, login.host, login.port, key, hmac);
    answer(revoked, said)?;
    if !openssh_accepts_key(key, login.least_rsa_bits) {
        return Err(HostRefusal::UnacceptedKey);
    }
    Ok(())
}
