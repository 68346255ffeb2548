//! What a walk over a list asks.

ghost use Rattle.std.specs.Prelude.{◌≡◌, is_some};
ghost use Rattle.sshkey_model.specs.Keys.{Key as PublicKey, normal_key, SpellsKey};
ghost use Rattle.sshkey_model.specs.Parts.{flat};
ghost use Rattle.sshkey_keys_ref.specs.Keys.{key_bytes};
ghost use Rattle.sshkey_krl.specs.Query.{certificate_query, identity_in, key_query, key_says, part_says, query_of, sha1_says, sha256_says, signer_says};
ghost use Rattle.sshkey_krl.specs.Revocation.{Numbers, Bitmap, Range};

use crate::asked_key::Key;
use crate::authority::is_normal_form;
use crate::serials::has_bit;
use crate::text::without_zero;
use sshkey_keys_ref::KeyDataRef;

/// What a list is asked about a certificate beside its key: the key that signed it, the serial
/// number and the key id, without a zero byte at its end.
#[derive(Clone, Copy)]
pub(crate) struct CertificateIdentity<'q> {
    signer: Key<'q>,
    number: u64,
    key_id: &'q [u8],
}

/// Whether one of two keys is listed, or a certificate that the second has signed.
#[derive(Clone, Copy)]
pub(crate) struct Query<'q> {
    key: Key<'q>,
    certificate: Option<CertificateIdentity<'q>>,
}

impl<'q> Query<'q> {
    /// About the key of those bytes.
    pub(crate) fn about_key(bytes: &'q [u8]) -> Query<'q>
        ensures { query_of result ≡ key_query bytes.now }
    {
        Query {
            key: Key::new(bytes),
            certificate: None,
        }
    }

    /// About the certificate of the key, which the other has signed.
    pub(crate) fn about_certificate(
        key: &'q [u8],
        signer: &'q [u8],
        serial: u64,
        key_id: &'q str,
    ) -> Query<'q>
        ensures { query_of result ≡ certificate_query key.now signer.now serial key_id.now }
    {
        Query {
            key: Key::new(key),
            certificate: Some(CertificateIdentity {
                signer: Key::new(signer),
                number: serial,
                key_id: without_zero(key_id.as_bytes()),
            }),
        }
    }

    /// The same, with the digests of the keys kept.
    pub(crate) fn with_digests(&self) -> Query<'q>
        ensures { query_of result ≡ query_of self.now }
    {
        let certificate = match self.certificate {
            Some(certificate) => Some(CertificateIdentity {
                signer: certificate.signer.with_digests(),
                number: certificate.number,
                key_id: certificate.key_id,
            }),
            None => None,
        };
        Query {
            key: self.key.with_digests(),
            certificate,
        }
    }

    /// The key that signed the certificate, or the key where no certificate is asked about.
    fn signer(&self) -> &Key<'q>
        ensures { result.now.bytes.now ≡ (query_of self.now).signer }
    {
        match &self.certificate {
            Some(certificate) => &certificate.signer,
            None => &self.key,
        }
    }

    /// Whether they are the bytes of one of the keys.
    pub(crate) fn is_key(&self, bytes: &[u8]) -> bool
        ensures { result ≡ key_says (query_of self.now) bytes.now }
    {
        self.key.bytes == bytes || self.has_certificate() && self.signer().bytes == bytes
    }

    /// Whether it is the digest of one of the keys.
    pub(crate) fn is_sha1(&self, digest: &[u8]) -> bool
        ensures { result ≡ sha1_says (query_of self.now) digest.now }
    {
        self.key.has_sha1(digest) || self.has_certificate() && self.signer().has_sha1(digest)
    }

    /// Whether it is the digest of one of the keys.
    pub(crate) fn is_sha256(&self, digest: &[u8]) -> bool
        ensures { result ≡ sha256_says (query_of self.now) digest.now }
    {
        self.key.has_sha256(digest) || self.has_certificate() && self.signer().has_sha256(digest)
    }

    /// Whether the key signed a certificate that is asked about.
    pub(crate) fn is_signer(&self, key: &KeyDataRef<'_>) -> bool
        ensures { (k : PublicKey) → SpellsKey k (key_bytes key.now) →
            result ≡ signer_says (query_of self.now) (flat (normal_key k)) }
    {
        self.certificate.is_some() && is_normal_form(self.signer().bytes, key)
    }

    /// Whether a certificate is asked about.
    pub(crate) fn has_certificate(&self) -> bool
        ensures { result ≡ is_some (query_of self.now).certificate }
    {
        self.certificate.is_some()
    }

    /// The serial number that is asked about; 0 if there is none.
    pub(crate) fn serial(&self) -> u64
        ensures { result ≡ (identity_in (query_of self.now)).serial }
    {
        match self.certificate {
            Some(certificate) => certificate.number,
            None => 0,
        }
    }

    /// Whether it lies in the range, both ends included.
    pub(crate) fn is_in_range(&self, first: u64, last: u64) -> bool
        ensures { result ≡ part_says (query_of self.now) (Numbers (Range first last)) }
    {
        let serial = self.serial();
        serial != 0 && first <= serial && serial <= last
    }

    /// Whether its bit is a one, of those that stand for that number and those after it.
    pub(crate) fn is_in_bitmap(&self, first: u64, bitmap: &[u8]) -> bool
        ensures { result ≡ part_says (query_of self.now) (Numbers (Bitmap first bitmap.now)) }
    {
        let serial = self.serial();
        serial != 0 && first <= serial && has_bit(bitmap, serial - first)
    }

    /// The key id that is asked about, which is empty if there is none.
    pub(crate) fn key_id(&self) -> &'q [u8]
        ensures { result.now ≡ (identity_in (query_of self.now)).key_id }
    {
        match self.certificate {
            Some(certificate) => certificate.key_id,
            None => &[],
        }
    }
}
