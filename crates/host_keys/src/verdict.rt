//! What known_hosts says of what a host shows.

ghost use Rattle.std.specs.Prelude.{◌≡◌, ◌↔◌, ◌<◌, length, IfErr, IfOk, IsTrue};
ghost use Rattle.sshkey_entries.specs.HostVerdicts.{known_name};
ghost use Rattle.sshkey_keys.specs.Keys.{key_of};
ghost use Rattle.sshkey_model.specs.Keys.{IsKey};
ghost use Rattle.sshkey_base.specs.declared.error.Error.TheVariants.{Memory};
ghost use Rattle.sshkey_known_hosts.specs.declared.verdict.Verdict.TheVariants.{Revoked, Unknown, Unreadable};
ghost use Rattle.host_keys.specs.Hosts.{IsSaidOfKey, IsSaidOfSigned, IsSettled, IsVerdictOfSigned, lines_of};

use crate::texts::{has_authority, verdict_of_all};
use sshkey_base::Result;
use sshkey_keys::KeyData;
use sshkey_known_hosts::{HostHasher, Verdict};
use std::alloc::Global;

/// The port at which a host is known by its plain name.
const STANDARD_PORT: u16 = 22;

/// What the texts say of the host's key. Fails only when out of memory.
pub(crate) fn key_verdict<H: HostHasher>(
    alloc: Global,
    texts: &[&[u8]],
    host: &str,
    port: u16,
    key: &KeyData,
    hmac: &H,
) -> Result<Verdict>
    ensures answer { IfOk result (IsSaidOfKey (H.hmac hmac.now) host.now port (key_of key.now)
        (lines_of texts.now)) }
    ensures memory { IfErr result (λ e. e ≡ Memory) }
    ensures asks { IfErr result (λ _. 0 < length (lines_of texts.now)) }
{
    let verdict = verdict_of_all(alloc, texts, host, port, key, hmac)?;
    if is_settled(verdict, port) {
        return Ok(verdict);
    }
    verdict_of_all(alloc, texts, host, STANDARD_PORT, key, hmac)
}

/// What the texts say of a key that the host shows and of the key that signed it. Fails only when
/// out of memory.
pub(crate) fn signed_verdict<H: HostHasher>(
    alloc: Global,
    texts: &[&[u8]],
    host: &str,
    port: u16,
    key: &KeyData,
    signer: &KeyData,
    hmac: &H,
) -> Result<Verdict>
    requires { IsKey (key_of signer.now) }
    ensures answer { IfOk result (IsSaidOfSigned (H.hmac hmac.now) host.now port
        (key_of key.now) (key_of signer.now) (lines_of texts.now)) }
    ensures memory { IfErr result (λ e. e ≡ Memory) }
    ensures asks { IfErr result (λ _. 0 < length (lines_of texts.now)) }
{
    let verdict = check_signed(alloc, texts, host, port, key, signer, hmac)?;
    if is_settled(verdict, port) {
        return Ok(verdict);
    }
    check_signed(alloc, texts, host, STANDARD_PORT, key, signer, hmac)
}

/// Whether nothing else is asked after a verdict on the host at that port.
fn is_settled(verdict: Verdict, port: u16) -> bool
    ensures { IsTrue result ↔ IsSettled verdict port }
{
    port == STANDARD_PORT || !is_unknown(verdict)
}

/// What the texts say of both at just that port. Fails only when out of memory.
fn check_signed<H: HostHasher>(
    alloc: Global,
    texts: &[&[u8]],
    host: &str,
    port: u16,
    key: &KeyData,
    signer: &KeyData,
    hmac: &H,
) -> Result<Verdict>
    requires { IsKey (key_of signer.now) }
    ensures answer { IfOk result (IsVerdictOfSigned (H.hmac hmac.now) (known_name host.now port)
        (key_of key.now) (key_of signer.now) (lines_of texts.now)) }
    ensures memory { IfErr result (λ e. e ≡ Memory) }
    ensures asks { IfErr result (λ _. 0 < length (lines_of texts.now)) }
{
    let of_key = verdict_of_all(alloc, texts, host, port, key, hmac)?;
    let of_signer = verdict_of_all(alloc, texts, host, port, signer, hmac)?;
    if is_revoked(of_key) || is_revoked(of_signer) {
        return Ok(Verdict::Revoked);
    }
    if is_unreadable(of_key) {
        return Ok(Verdict::Unreadable);
    }
    if has_authority(alloc, texts, host, port, signer, hmac)? {
        return Ok(Verdict::Trusted);
    }
    Ok(Verdict::Unknown)
}

fn is_revoked(verdict: Verdict) -> bool
    ensures { IsTrue result ↔ (verdict ≡ Revoked) }
{
    matches!(verdict, Verdict::Revoked)
}

fn is_unreadable(verdict: Verdict) -> bool
    ensures { IsTrue result ↔ (verdict ≡ Unreadable) }
{
    matches!(verdict, Verdict::Unreadable)
}

fn is_unknown(verdict: Verdict) -> bool
    ensures { IsTrue result ↔ (verdict ≡ Unknown) }
{
    matches!(verdict, Verdict::Unknown)
}
