//! Whether bytes are a certificate's normal form.

ghost use Rattle.std.specs.Prelude.{◌≡◌, ◌↔◌, IsTrue};
ghost use Rattle.sshkey_cert.specs.Certificates.{certificate_of};
ghost use Rattle.sshkey_model.specs.Certificates.{normal_certificate, SpellsCertificate};
ghost use Rattle.sshkey_model.specs.Parts.{flat};

use crate::Certificate;
use crate::laws::shortest_certificate;
use sshkey_base::Encode;
use sshkey_model::laws::certificate_fits;

/// Returns whether the bytes, which spell the certificate, are its normal form. Every other spelling
/// is longer, so that no byte has to be compared. Does not allocate.
pub fn is_normal_form(certificate: &Certificate, blob: &[u8]) -> bool
    requires { SpellsCertificate (certificate_of certificate.now) blob.now }
    ensures { IsTrue result
        ↔ (blob.now ≡ flat (normal_certificate (certificate_of certificate.now))) }
{
    certificate_fits();
    shortest_certificate();
    match certificate.encoded_len() {
        Ok(len) => len == blob.len(),
        Err(_) => false,
    }
}
