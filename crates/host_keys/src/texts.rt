//! What the lines of several texts of known_hosts say, as if they stood in one.

ghost use Rattle.std.specs.List.{Any};
ghost use Rattle.std.specs.Prelude.{◌≡◌, ◌↔◌, ◌<◌, length, IfErr, IfOk, IsTrue};
ghost use Rattle.sshkey_entries.specs.HostVerdicts.{known_name, IsAuthority};
ghost use Rattle.sshkey_keys.specs.Keys.{key_of};
ghost use Rattle.sshkey_known_hosts.specs.Verdicts.{IsVerdict};
ghost use Rattle.sshkey_model.specs.Keys.{IsKey};
ghost use Rattle.sshkey_public.specs.PublicKeys.{public_of};
ghost use Rattle.sshkey_base.specs.declared.error.Error.TheVariants.{Memory};
ghost use Rattle.host_keys.specs.Hosts.{lines_of};

use sshkey_base::Result;
use sshkey_keys::KeyData;
use sshkey_known_hosts::{HostHasher, Verdict, authorities, key_verdict};
use sshkey_public::PublicKey;
use std::alloc::Global;

/// What the texts say of a key at just that port. Fails only when out of memory.
pub(crate) fn verdict_of_all<H: HostHasher>(
    alloc: Global,
    texts: &[&[u8]],
    host: &str,
    port: u16,
    key: &KeyData,
    hmac: &H,
) -> Result<Verdict>
    ensures answer { IfOk result (IsVerdict (H.hmac hmac.now) (known_name host.now port)
        (key_of key.now) (lines_of texts.now)) }
    ensures memory { IfErr result (λ e. e ≡ Memory) }
    ensures asks { IfErr result (λ _. 0 < length (lines_of texts.now)) }
{
    let mut found = Verdict::Unknown;
    for text in texts {
        found = found.max_severity(key_verdict(alloc, text, host, port, key, hmac)?);
    }
    Ok(found)
}

/// Whether a line of one of the texts has the key as that of an authority of the host. Fails only
/// when out of memory.
pub(crate) fn has_authority<H: HostHasher>(
    alloc: Global,
    texts: &[&[u8]],
    host: &str,
    port: u16,
    key: &KeyData,
    hmac: &H,
) -> Result<bool>
    requires { IsKey (key_of key.now) }
    ensures answer { IfOk result (λ yes. IsTrue yes ↔ IsAuthority (H.hmac hmac.now)
        (known_name host.now port) (key_of key.now) (lines_of texts.now)) }
    ensures memory { IfErr result (λ e. e ≡ Memory) }
    ensures asks { IfErr result (λ _. 0 < length (lines_of texts.now)) }
{
    for text in texts {
        let keys = authorities(alloc, text, host, port, hmac)?;
        if has_key(&keys, key) {
            return Ok(true);
        }
    }
    Ok(false)
}

/// Whether one of the keys is that key.
fn has_key(keys: &[PublicKey], key: &KeyData) -> bool
    requires { IsKey (key_of key.now) }
    ensures { IsTrue result ↔ Any (λ k. public_of k ≡ key_of key.now) keys.now }
{
    for listed in keys {
        if key.is(listed.key_data()) {
            return true;
        }
    }
    false
}
