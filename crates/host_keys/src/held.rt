//! Whether a key or a certificate is the host's, by lines of known_hosts that are held.

ghost use Rattle.std.specs.Prelude.{◌≡◌, ◌≢◌, ℕ, List, IfErr, IfOk};
ghost use Rattle.sshkey_keys.specs.Keys.{key_of};
ghost use Rattle.openssh_limits.specs.Padding.{padding};
ghost use Rattle.host_keys.specs.Answers.{KnownExactly, OkExactly, RefusesHostCertificate, RefusesHostKey};
ghost use Rattle.host_keys.specs.Hosts.{RanOut, SayTheSame, held_login, IsHostCertificate, IsHostKey, lines_of, login_of};
ghost use Rattle.host_keys.specs.declared.refusal.HostRefusal.TheVariants as refusal;

use crate::certificate::check_certificate;
use crate::host_check::HostCheck;
use crate::key::check_key;
use crate::known_by::KnownBy;
use crate::refusal::HostRefusal;
use sshkey_keys::{KeyData, RawVerifier};
use sshkey_known_hosts::{HeldLine, HostHasher, texts_for};
use sshkey_krl::Revocations;
use sshkey_matching::{HostFault, asked_host};
use std::alloc::Global;

impl<'a> HostCheck<'a> {
    /// The texts of the host, and those of the held lines that may be for it. None are asked of a
    /// host about which nothing can be asked. Fails only when out of memory.
    fn texts_with(&self, alloc: Global, held: &[HeldLine<'a>]) -> Result<Vec<&'a [u8]>, HostRefusal>
        ensures same { IfOk result (λ texts. (hmac : List ℕ → List ℕ → List ℕ) →
            SayTheSame (held_login self.now held.now hmac) (lines_of texts.items)) }
        ensures memory { IfErr result (RanOut self.now) }
    {
        let asked = match asked_host(alloc, self.host, self.port) {
            Ok(asked) => asked,
            Err(HostFault::Memory) => return Err(HostRefusal::Memory),
            Err(HostFault::Port) => return Ok(Vec::new(alloc)),
            Err(HostFault::Empty) => return Ok(Vec::new(alloc)),
            Err(HostFault::Address) => return Ok(Vec::new(alloc)),
        };
        let Ok(mut texts) = texts_for(alloc, held, asked.as_str(), self.port) else {
            return Err(HostRefusal::Memory);
        };
        match texts.extend_from_slice(self.texts) {
            Ok(()) => Ok(texts),
            Err(_) => Err(HostRefusal::Memory),
        }
    }

    /// The same host by these texts.
    fn by<'b>(&'b self, texts: &'b [&'b [u8]]) -> HostCheck<'b>
        ensures { (hmac : List ℕ → List ℕ → List ℕ) → login_of result hmac
            ≡ record (login_of self.now hmac) { lines = lines_of texts.now } }
    {
        HostCheck {
            texts,
            host: self.host,
            port: self.port,
            unix_timestamp: self.unix_timestamp,
            least_rsa_bits: self.least_rsa_bits,
        }
    }
}

/// What `check_key` says, where lines of known_hosts are held (`sshkey_known_hosts::hold_lines`):
/// by these and by `login.texts`, as if all stood in one text. A line that is for others costs no
/// more than a look at a number.
pub fn check_held_key<H: HostHasher, R: Revocations>(
    alloc: Global,
    login: &HostCheck,
    held: &[HeldLine],
    key: &KeyData,
    hmac: &H,
    revocations: &R,
) -> Result<(), HostRefusal>
    ensures exactly { OkExactly (IsHostKey (held_login login.now held.now (H.hmac hmac.now))
        (R.revokes_key revocations.now) (key_of key.now)) result }
    ensures refused { IfErr result (RefusesHostKey (held_login login.now held.now
        (H.hmac hmac.now)) (R.revokes_key revocations.now) (key_of key.now)) }
{
    let texts = login.texts_with(alloc, held)?;
    check_key(alloc, &login.by(&texts), key, hmac, revocations)
}

/// What `check_certificate` says, where lines of known_hosts are held, as by `check_held_key`.
pub fn check_held_certificate<H: HostHasher, R: Revocations, V: RawVerifier>(
    alloc: Global,
    login: &HostCheck,
    held: &[HeldLine],
    certificate: &[u8],
    hmac: &H,
    revocations: &R,
    verifier: &V,
) -> Result<KnownBy, HostRefusal>
    ensures exactly { KnownExactly (IsHostCertificate (held_login login.now held.now
        (H.hmac hmac.now)) (padding (V.accepts verifier.now)) (R.revokes revocations.now)
        (R.revokes_key revocations.now) certificate.now) result }
    ensures refused { IfErr result (λ r. r ≢ refusal.Memory → RefusesHostCertificate
        (held_login login.now held.now (H.hmac hmac.now)) (padding (V.accepts verifier.now))
        (R.revokes revocations.now) (R.revokes_key revocations.now) certificate.now r) }
{
    let texts = login.texts_with(alloc, held)?;
    check_certificate(
        alloc,
        &login.by(&texts),
        certificate,
        hmac,
        revocations,
        verifier,
    )
}
