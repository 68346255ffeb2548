//! Names of algorithms in requests.

ghost use Rattle.std.specs.Prelude.{◌≡◌, option_map};
ghost use Rattle.sshkey_base.specs.Names.{algorithm_of};
ghost use Rattle.sshkey_keys.specs.Keys.{key_of};
ghost use Rattle.sshkey_userauth.specs.Judgements.{form_of, form_under, form_under_rsa, request_names};
ghost use Rattle.sshkey_userauth.specs.Values.{both};

use sshkey_base::{Algorithm, EcdsaCurve, HashAlg};
use sshkey_keys::KeyData;

/// How the key stands in a request.
#[derive(Clone, Copy, Debug)]
pub enum KeyForm {
    /// As itself.
    Plain,
    /// In a certificate.
    Certified,
}

/// How the key stands in a request with that name, whichever of its algorithms the signature is by:
/// of RSA that with SHA-512 or with SHA-256. `None` if the key signs under no such name. Does not
/// allocate.
///
/// It is for those who see no signature, since their transport has verified it: one that is there
/// tells its algorithm (`UserauthRequest::key_form`).
pub fn form_under(name: &[u8], key: &KeyData) -> Option<KeyForm>
    ensures { result ≡ form_under name.now (key_of key.now) }
{
    match key {
        KeyData::Ecdsa(key) => form_of(name, &key.algorithm()),
        KeyData::Ed25519(_) => form_of(name, &Algorithm::Ed25519),
        KeyData::Rsa(_) => form_under_rsa(name),
        KeyData::SkEcdsaSha2NistP256(_) => form_of(name, &Algorithm::SkEcdsaSha2NistP256),
        KeyData::SkEd25519(_) => form_of(name, &Algorithm::SkEd25519),
        KeyData::Dsa(_) | KeyData::Other(_) => None,
    }
}

/// The same of an RSA key.
fn form_under_rsa(name: &[u8]) -> Option<KeyForm>
    ensures { result ≡ form_under_rsa name.now }
{
    let sha512 = Algorithm::Rsa {
        hash: Some(HashAlg::Sha512),
    };
    let sha256 = Algorithm::Rsa {
        hash: Some(HashAlg::Sha256),
    };
    match form_of(name, &sha512) {
        Some(form) => Some(form),
        None => form_of(name, &sha256),
    }
}

/// How the key stands in a request with that name, if the signature is by that algorithm.
pub(super) fn form_of(name: &[u8], algorithm: &Algorithm) -> Option<KeyForm>
    ensures { result ≡ form_of name.now (algorithm_of algorithm.now) }
{
    match request_names(algorithm) {
        Some((plain, certified)) => {
            if name == plain {
                return Some(KeyForm::Plain);
            }
            if name == certified {
                return Some(KeyForm::Certified);
            }
            None
        }
        None => None,
    }
}

/// The names that requests have for a key and a certificate whose signatures are by the algorithm.
fn request_names(algorithm: &Algorithm) -> Option<(&'static [u8], &'static [u8])>
    ensures { option_map both result ≡ request_names (algorithm_of algorithm.now) }
{
    match algorithm {
        Algorithm::Ecdsa { curve } => match curve {
            EcdsaCurve::NistP256 => Some((
                b"ecdsa-sha2-nistp256",
                b"ecdsa-sha2-nistp256-cert-v01@openssh.com",
            )),
            EcdsaCurve::NistP384 => Some((
                b"ecdsa-sha2-nistp384",
                b"ecdsa-sha2-nistp384-cert-v01@openssh.com",
            )),
            EcdsaCurve::NistP521 => Some((
                b"ecdsa-sha2-nistp521",
                b"ecdsa-sha2-nistp521-cert-v01@openssh.com",
            )),
        },
        Algorithm::Ed25519 => Some((b"ssh-ed25519", b"ssh-ed25519-cert-v01@openssh.com")),
        Algorithm::Rsa { hash: Some(hash) } => match hash {
            HashAlg::Sha256 => Some((b"rsa-sha2-256", b"rsa-sha2-256-cert-v01@openssh.com")),
            HashAlg::Sha512 => Some((b"rsa-sha2-512", b"rsa-sha2-512-cert-v01@openssh.com")),
        },
        Algorithm::SkEcdsaSha2NistP256 => Some((
            b"sk-ecdsa-sha2-nistp256@openssh.com",
            b"sk-ecdsa-sha2-nistp256-cert-v01@openssh.com",
        )),
        Algorithm::SkEd25519 => Some((
            b"sk-ssh-ed25519@openssh.com",
            b"sk-ssh-ed25519-cert-v01@openssh.com",
        )),
        Algorithm::Dsa | Algorithm::Rsa { hash: None } | Algorithm::Other(_) => None,
    }
}
