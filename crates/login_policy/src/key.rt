//! The keys of a certificate: the one that it certifies, and the one that signed.

ghost use Rattle.std.specs.Prelude.{◌≡◌, true};
ghost use Rattle.sshkey_cert.specs.Certificates.{certificate_of};
ghost use Rattle.sshkey_model.specs.Refusals.{is_signed};
ghost use Rattle.login_policy.specs.Logins.{are_accepted};

use openssh_limits::openssh_accepts_key;
use sshkey_cert::Certificate;

/// Whether sshd(8) accepts the key that is certified, and the key that signed the certificate. What
/// size an RSA key has to have is asked of the certified one: a key that signs has 1,024 bits at
/// least.
pub(crate) fn are_accepted(certificate: &Certificate, least_rsa_bits: u32) -> bool
    ensures { result ≡ are_accepted least_rsa_bits (certificate_of certificate.now).signed.key
        (certificate_of certificate.now).signed.signature_key }
{
    openssh_accepts_key(certificate.public_key(), least_rsa_bits)
        && openssh_accepts_key(certificate.signature_key(), 0)
}

/// Whether the certificate raises a question: else no verifier can say yes. Does not allocate.
pub(crate) fn raises_question(certificate: &Certificate) -> bool
    ensures { result ≡ is_signed (λ _. true) (certificate_of certificate.now) }
{
    // that does not depend on the message
    let message: &[u8] = &[];
    certificate
        .signature_key()
        .question(message, certificate.signature())
        .is_some()
}
