//! What the signature of a certificate is over.

ghost use Rattle.std.specs.Prelude.{◌≡◌, ◌↔◌, ◌++◌, IsTrue, IsSome, IfSome};
ghost use Rattle.sshkey_model.specs.Certificates.{normal_to_be_signed, plain_choices};
ghost use Rattle.sshkey_model.specs.Keys.{Plain};
ghost use Rattle.sshkey_model.specs.Options.{plain_nestings};
ghost use Rattle.sshkey_model.specs.Parts.{box, flat};
ghost use Rattle.sshkey_model.specs.Signatures.{signature};
ghost use Rattle.sshkey_cert_ref.specs.CertificateRef.{certificate_bytes, certificate_of, choices_of};

use super::CertificateRef;

impl<'a> CertificateRef<'a> {
    /// The bytes before the signature, where they are what the signature is over: the normal form
    /// of all other fields. Does not allocate.
    ///
    /// `None` exactly where a part is spelled in its other way: the name of an RSA signature key
    /// with a hash (RFC 8332, section 3), or an empty value of an option as an empty text in its
    /// string.
    pub fn signed_bytes(&self) -> Option<&'a [u8]>
        ensures plain { IsSome result
            ↔ (choices_of self.now ≡ plain_choices (certificate_of self.now).signed) }
        ensures front { IfSome result (λ signed. certificate_bytes self.now
            ≡ signed.now ++ flat (box (signature (certificate_of self.now).signature))) }
        ensures normal { IfSome result (λ signed. signed.now
            ≡ flat (normal_to_be_signed (certificate_of self.now).signed)) }
    {
        if !self.is_plain() {
            return None;
        }
        Some(self.signed)
    }

    /// Whether each part is spelled as in the normal form.
    fn is_plain(&self) -> bool
        ensures { IsTrue result
            ↔ (choices_of self.now ≡ plain_choices (certificate_of self.now).signed) }
    {
        self.has_plain_critical_options() && self.has_plain_extensions() && self.has_plain_key()
    }

    /// Whether the critical options are spelled as in their normal form.
    fn has_plain_critical_options(&self) -> bool
        ensures { IsTrue result ↔ ((choices_of self.now).critical_options
            ≡ plain_nestings (certificate_of self.now).signed.critical_options) }
    {
        self.critical_options().is_plain()
    }

    /// Whether the extensions are spelled as in their normal form.
    fn has_plain_extensions(&self) -> bool
        ensures { IsTrue result ↔ ((choices_of self.now).extensions
            ≡ plain_nestings (certificate_of self.now).signed.extensions) }
    {
        self.extensions().is_plain()
    }

    /// Whether the signature key is spelled as in its normal form.
    fn has_plain_key(&self) -> bool
        ensures { IsTrue result ↔ ((choices_of self.now).signature_key ≡ Plain) }
    {
        self.parts.signature_key.normal_bytes().is_some()
    }
}
