//! The keys and the signature of a certificate, as parts of its bytes.

ghost use Rattle.std.specs.Prelude.{◌≡◌};
ghost use Rattle.sshkey_keys_ref.specs.Keys.{key_bytes};
ghost use Rattle.sshkey_keys_ref.specs.Signatures.{signature_bytes};
ghost use Rattle.sshkey_model.specs.Keys.{body, key, SpellsKey};
ghost use Rattle.sshkey_model.specs.Parts.{flat};
ghost use Rattle.sshkey_model.specs.Signatures.{signature, SpellsSignature};
ghost use Rattle.sshkey_cert_ref.specs.CertificateRef.{certificate_of, choices_of};

use super::CertificateRef;
use sshkey_keys_ref::{KeyDataRef, SignatureRef};

impl<'a> CertificateRef<'a> {
    /// The body of the certified key: what stands in the certificate after the nonce, and after the
    /// name in the key's own blob. Does not allocate.
    pub fn key_body(&self) -> &'a [u8]
        ensures { result.now ≡ flat (body (certificate_of self.now).signed.key) }
    {
        self.parts.key
    }

    /// The key that signed, as a part of the certificate. Does not allocate.
    pub fn signature_key_ref(&self) -> KeyDataRef<'a>
        ensures bytes { key_bytes result
            ≡ flat (key (certificate_of self.now).signed.signature_key
            (choices_of self.now).signature_key) }
        ensures spelled { SpellsKey (certificate_of self.now).signed.signature_key
            (key_bytes result) }
    {
        self.parts.signature_key
    }

    /// The signature, as a part of the certificate: the last. Does not allocate.
    pub fn signature_ref(&self) -> SignatureRef<'a>
        ensures bytes { signature_bytes result
            ≡ flat (signature (certificate_of self.now).signature) }
        ensures spelled { SpellsSignature (certificate_of self.now).signature
            (signature_bytes result) }
    {
        self.signature
    }
}
