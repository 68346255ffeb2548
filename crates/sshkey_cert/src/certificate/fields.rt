//! The fields of a certificate.

ghost use Rattle.std.specs.Prelude.{◌≡◌, ◌↔◌, IsTrue, IsOk, IfOk, IfErr, map, string_bytes, true};
ghost use Rattle.sshkey_base.specs.Names.{IsFixed, algorithm_of};
ghost use Rattle.sshkey_base.specs.declared.error.Error.TheVariants as wide;
ghost use Rattle.sshkey_keys.specs.Keys.{stored_algorithm, key_of};
ghost use Rattle.sshkey_keys.specs.Signatures.{signature_of};
ghost use Rattle.sshkey_model.specs.Certificates.{IsCertificate, is_time, is_end, forever};
ghost use Rattle.sshkey_model.specs.Keys.{IsKey, key_algorithm};
ghost use Rattle.sshkey_cert_values.specs.CertificateFields.{type_of, options_of};
ghost use Rattle.sshkey_cert.specs.Certificates.{certificate_of, certified_key_of, comment_of, signer_of};

use super::Certificate;
use sshkey_base::{Algorithm, Result};
use sshkey_cert_values::{CertType, OptionsMap};
use sshkey_keys::{KeyData, Signature};
use std::alloc::Global;

impl Certificate {
    /// The algorithm of the certified key. An opaque key stores its algorithm beside its bytes; in
    /// a well-formed key it is the one that its name tells.
    ///
    /// Fails only when out of memory, and only under a private-use name.
    pub fn algorithm(&self, alloc: Global) -> Result<Algorithm>
        ensures ok { IfOk result
            (λ a. algorithm_of a ≡ stored_algorithm (certified_key_of self.now)) }
        ensures well_formed { IsKey (certificate_of self.now).signed.key →
            stored_algorithm (certified_key_of self.now)
            ≡ key_algorithm (certificate_of self.now).signed.key }
        ensures fixed { IsFixed (stored_algorithm (certified_key_of self.now)) → IsOk result }
        ensures memory { IfErr result (λ e. e ≡ wide.Memory) }
    {
        self.fields.public_key.algorithm(alloc)
    }

    /// The nonce: random bytes of the signer's choice, so that nobody can prepare two certificates
    /// with one digest (PROTOCOL.certkeys).
    pub fn nonce(&self) -> &[u8]
        ensures { result.now ≡ (certificate_of self.now).signed.nonce }
    {
        self.fields.nonce.as_slice()
    }

    /// The certified key. It is well-formed in every certificate that was read; only
    /// `Certificate::sign` can make one with a key that is not: an opaque key whose name is that of
    /// another kind.
    #[tactic(auto, using(crate::proofs::Certificates::certified_key_is))]
    pub fn public_key(&self) -> &KeyData
        ensures value { key_of result.now ≡ (certificate_of self.now).signed.key }
        ensures well_formed { IsCertificate (certificate_of self.now) → IsKey (key_of result.now) }
        ensures same { result.now ≡ certified_key_of self.now }
    {
        &self.fields.public_key
    }

    /// The serial number that the authority gave the certificate, or 0 if it assigns none.
    pub fn serial(&self) -> u64
        ensures { result ≡ (certificate_of self.now).signed.serial }
    {
        self.fields.serial
    }

    /// Whether the certificate is for a user or for a host.
    pub fn cert_type(&self) -> CertType
        ensures { type_of result ≡ (certificate_of self.now).signed.certificate_type }
    {
        self.fields.cert_type
    }

    /// A text of the authority's choice that identifies the holder, for logs.
    pub fn key_id(&self) -> &str
        ensures { result.now ≡ (certificate_of self.now).signed.key_id }
    {
        self.fields.key_id.as_str()
    }

    /// The principals. If there are none, `allows_principal` allows everybody.
    pub fn valid_principals(&self) -> &[String]
        ensures { map string_bytes result.now ≡ (certificate_of self.now).signed.valid_principals }
    {
        &self.fields.valid_principals
    }

    /// The first second of the window.
    pub fn valid_after(&self) -> u64
        ensures value { result ≡ (certificate_of self.now).signed.valid_after }
        ensures time { is_time result ≡ true }
    {
        self.fields.valid_after.secs()
    }

    /// The first second after the window, or 2^64 - 1 if it has no end.
    pub fn valid_before(&self) -> u64
        ensures value { result ≡ (certificate_of self.now).signed.valid_before }
        ensures end { is_end result ≡ true }
    {
        self.fields.valid_before.secs()
    }

    /// Whether the window has no end.
    pub fn is_forever(&self) -> bool
        ensures { IsTrue result ↔ ((certificate_of self.now).signed.valid_before ≡ forever) }
    {
        self.fields.valid_before.is_forever()
    }

    /// Restrictions on the use of the certificate. Refuse a certificate that has one that you do
    /// not know.
    pub fn critical_options(&self) -> &OptionsMap
        ensures { options_of result.now ≡ (certificate_of self.now).signed.critical_options }
    {
        &self.fields.critical_options
    }

    /// What the certificate grants additionally. Ignore an extension that you do not know.
    pub fn extensions(&self) -> &OptionsMap
        ensures { options_of result.now ≡ (certificate_of self.now).signed.extensions }
    {
        &self.fields.extensions
    }

    /// The key that signed. It is well-formed in every certificate that was read.
    pub fn signature_key(&self) -> &KeyData
        ensures value { key_of result.now ≡ (certificate_of self.now).signed.signature_key }
        ensures well_formed { IsCertificate (certificate_of self.now) → IsKey (key_of result.now) }
        ensures same { result.now ≡ signer_of self.now }
    {
        &self.fields.signature_key
    }

    /// The signature under the signature key, over all fields before it.
    pub fn signature(&self) -> &Signature
        ensures { signature_of result.now ≡ (certificate_of self.now).signature }
    {
        &self.signature
    }

    /// The comment, which is not in the bytes.
    pub fn comment(&self) -> &str
        ensures { result.now ≡ comment_of self.now }
    {
        self.comment.as_str()
    }
}
