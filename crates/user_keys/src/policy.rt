//! What a certificate says by itself, whatever line lets it in.

ghost use Rattle.std.specs.Prelude.{◌≡◌, ◌≢◌, IfErr, IfOk, IsTrue};
ghost use Rattle.openssh_limits.specs.Limits.{openssh_accepts_key};
ghost use Rattle.sshkey_model.specs.Certificates.{certificate_format, SpellsCertificate};
ghost use Rattle.sshkey_cert.specs.Certificates.{certificate_of};
ghost use Rattle.sshkey_cert.specs.Validity.{fingerprints_of};
ghost use Rattle.openssh_limits.specs.Padding.{padding};
ghost use Rattle.user_keys.specs.CertificateLogins.{IsWhyUnread, PolicyGrants, RefusesByPolicy, client_of, login_with, policy_login};
ghost use Rattle.user_keys.specs.declared.refusal.UserRefusal.TheVariants as refusal;

use crate::login::UserLogin;
use crate::refusal::UserRefusal;
use login_policy::{Client, Login, log_in};
use openssh_limits::openssh_accepts_key;
use sshkey_cert::Certificate;
use sshkey_keys::{Fingerprint, RawVerifier};
use sshkey_krl::Revocations;
use std::alloc::Global;
use std::net::IpAddr;

/// Reads a certificate by an authority whose key sshd(8) accepts.
pub fn read_certificate(alloc: Global, bytes: &[u8]) -> Result<Certificate, UserRefusal>
    ensures reads { IfOk result (λ c. SpellsCertificate (certificate_of c) bytes.now
        × IsTrue (openssh_accepts_key 0 (certificate_of c).signed.signature_key)) }
    ensures refused { IfErr result (λ r. r ≢ refusal.Memory → IsWhyUnread bytes.now r) }
    ensures asks { IfErr result (λ r. r ≡ refusal.Memory → certificate_format.needs bytes.now 0) }
{
    let read = match Certificate::from_bytes(alloc, bytes) {
        Ok(read) => read,
        Err(error) => return Err(UserRefusal::from(login_policy::LoginRefusal::from(error))),
    };
    if !openssh_accepts_key(read.signature_key(), 0) {
        return Err(UserRefusal::UnacceptedKey);
    }
    Ok(read)
}

/// What the policy of certificates says of a login by who has that name, by one of these
/// authorities.
pub(crate) fn log_in_as<R: Revocations, V: RawVerifier>(
    alloc: Global,
    login: &UserLogin,
    certificate: &[u8],
    name: &str,
    authorities: &[Fingerprint],
    revocations: &R,
    verifier: &V,
) -> Result<login_policy::Grant, UserRefusal>
    ensures exactly { PolicyGrants (policy_login (login_with login.now certificate.now
        (padding (V.accepts verifier.now)) (R.revokes revocations.now))
        (fingerprints_of authorities.now) name.now) result }
    ensures refused { IfErr result (λ r. r ≢ refusal.Memory → RefusesByPolicy (policy_login
        (login_with login.now certificate.now (padding (V.accepts verifier.now))
        (R.revokes revocations.now))
        (fingerprints_of authorities.now) name.now) r) }
{
    let granted = log_in(
        alloc,
        &Login {
            certificate,
            user: name,
            unix_timestamp: login.unix_timestamp,
            authorities,
            least_rsa_bits: login.least_rsa_bits,
            client: client_of(login.client),
        },
        revocations,
        verifier,
    )?;
    Ok(granted)
}

fn client_of(address: Option<IpAddr>) -> Client
    ensures { result ≡ client_of address }
{
    match address {
        Some(address) => Client::At(address),
        None => Client::Unknown,
    }
}
