//! The fields of a certificate, as parts of its bytes.

ghost use Rattle.std.specs.Prelude.{◌≡◌, ◌↔◌, IsTrue, true};
ghost use Rattle.sshkey_model.specs.CertificateNames.{certificate_name};
ghost use Rattle.sshkey_model.specs.Certificates.{is_time, is_end, forever};
ghost use Rattle.sshkey_model.specs.Keys.{key_algorithm};
ghost use Rattle.sshkey_cert_values.specs.CertificateFields.{type_of};
ghost use Rattle.sshkey_cert_ref.specs.Views.{texts_of, options_of, nestings_of};
ghost use Rattle.sshkey_cert_ref.specs.CertificateRef.{certificate_of, choices_of};

use super::CertificateRef;
use crate::certificate_options_ref::CertificateOptionsRef;
use crate::principals_ref::PrincipalsRef;
use sshkey_cert_values::CertType;

impl<'a> CertificateRef<'a> {
    /// The name of the certified key's algorithm, in the form that it has in certificates.
    pub fn certificate_name(&self) -> &'a str
        ensures { result.now
            ≡ certificate_name (key_algorithm (certificate_of self.now).signed.key) }
    {
        self.parts.name
    }

    /// The nonce: random bytes of the signer's choice, so that nobody can prepare two certificates
    /// with one digest (PROTOCOL.certkeys).
    pub fn nonce(&self) -> &'a [u8]
        ensures { result.now ≡ (certificate_of self.now).signed.nonce }
    {
        self.parts.nonce
    }

    /// The number that the signer gave the certificate, to refer to it; 0 where it numbers none.
    pub fn serial(&self) -> u64
        ensures { result ≡ (certificate_of self.now).signed.serial }
    {
        self.parts.serial
    }

    /// Whether the certificate is for a user or for a host.
    pub fn cert_type(&self) -> CertType
        ensures { type_of result ≡ (certificate_of self.now).signed.certificate_type }
    {
        self.parts.cert_type
    }

    /// A text of the signer's choice that names whom the certificate is for, for logs.
    pub fn key_id(&self) -> &'a str
        ensures { result.now ≡ (certificate_of self.now).signed.key_id }
    {
        self.parts.key_id
    }

    /// The principals; where there are none, `allows_principal` allows all.
    pub fn valid_principals(&self) -> PrincipalsRef<'a>
        ensures { texts_of result ≡ (certificate_of self.now).signed.valid_principals }
    {
        self.parts.valid_principals
    }

    /// The first second of the window.
    pub fn valid_after(&self) -> u64
        ensures value { result ≡ (certificate_of self.now).signed.valid_after }
        ensures time { is_time result ≡ true }
    {
        self.parts.valid_after.secs()
    }

    /// The first second after the window, or 2^64 - 1 if it has no end.
    pub fn valid_before(&self) -> u64
        ensures value { result ≡ (certificate_of self.now).signed.valid_before }
        ensures end { is_end result ≡ true }
    {
        self.parts.valid_before.secs()
    }

    /// Whether the window has no end.
    pub fn is_forever(&self) -> bool
        ensures { IsTrue result ↔ ((certificate_of self.now).signed.valid_before ≡ forever) }
    {
        self.parts.valid_before.is_forever()
    }

    /// Restrictions on the use of the certificate. Refuse a certificate that has one that you do
    /// not know.
    pub fn critical_options(&self) -> CertificateOptionsRef<'a>
        ensures options { options_of result
            ≡ (certificate_of self.now).signed.critical_options }
        ensures choices { nestings_of result ≡ (choices_of self.now).critical_options }
    {
        self.parts.critical_options
    }

    /// What else the certificate grants. Ignore an extension that you do not know.
    pub fn extensions(&self) -> CertificateOptionsRef<'a>
        ensures options { options_of result ≡ (certificate_of self.now).signed.extensions }
        ensures choices { nestings_of result ≡ (choices_of self.now).extensions }
    {
        self.parts.extensions
    }

    /// Bytes that have no meaning yet, and that a reader ignores.
    pub fn reserved(&self) -> &'a [u8]
        ensures { result.now ≡ (certificate_of self.now).signed.reserved }
    {
        self.parts.reserved
    }
}
