//! Certificates that are the bytes that spell them.

ghost use Rattle.std.proofs.Props.{props};
ghost use Rattle.std.specs.Prelude.{◌≡◌, true};
ghost use Rattle.sshkey_base.specs.Causes.{cause};
ghost use Rattle.sshkey_model.specs.Certificates.{certificate_at, to_be_signed};
ghost use Rattle.sshkey_model.specs.Parts.{flat};
ghost use Rattle.sshkey_model.specs.Reading.{box_at, whole};
ghost use Rattle.sshkey_model.specs.Signatures.{signature_at};
ghost use Rattle.sshkey_terms.specs.Slices.{is_taken};
ghost use Rattle.sshkey_cert_ref.specs.Parts.{AreCertificateParts, IsSignatureIn, TakesWhole};
ghost use Rattle.sshkey_cert_ref.specs.Certificates.{fields_in, spelled_in};

mod fields;
mod lent;
mod owned;
mod question;
mod refusal;
mod signed;
mod validity;

use crate::leaves::split_signature;
use crate::parts::Parts;
use crate::walk::split_parts;
use sshkey_base::{Error, Result, encoding};
use sshkey_keys_ref::SignatureRef;

/// A certificate as the bytes that spell it (PROTOCOL.certkeys): its parts are slices of them. It
/// does not allocate.
///
/// Contracts see the certificate that the bytes spell, by `certificate_of`, and how each part of it
/// is spelled that may be spelled in two ways, by `choices_of`.
#[derive(Clone, Copy, Debug)]
pub struct CertificateRef<'a> {
    bytes: &'a [u8],
    signed: &'a [u8],
    parts: Parts<'a>,
    signature: SignatureRef<'a>,
    pub ghost form: { is_taken (whole certificate_at bytes.now) ≡ true },
    ghost before: { signed.now
        ≡ flat (to_be_signed (spelled_in bytes.now).0.signed (spelled_in bytes.now).1) },
    ghost fields: { AreCertificateParts parts (fields_in bytes.now) } by { Prim.hlevel props },
    ghost last: { IsSignatureIn signature (spelled_in bytes.now).0.signature },
}

impl<'a> CertificateRef<'a> {
    ghost use Rattle.sshkey_terms.specs.Slices.{AcceptsAll, Keeps};
    ghost use Rattle.sshkey_model.specs.Certificates.{SpellsCertificate};
    ghost use Rattle.sshkey_cert_ref.specs.CertificateRef.{certificate_bytes, certificate_of};

    /// The certificate that all the bytes together spell, read once from left to right. Does not
    /// allocate.
    ///
    /// It accepts what `Certificate::from_bytes` with enough memory accepts, and rejects the rest
    /// with the same faults, the first from the left: `Length` for a stated length that passes the
    /// bytes, `Label` for a name of no algorithm, `CharacterEncoding` for a text that is not UTF-8,
    /// `FormatEncoding` for a type other than 1 and 2 and for options that do not rise, `Time` for
    /// a time above 2^63 - 1 that is not the end 2^64 - 1, the faults of keys and of signatures,
    /// where one by RSA with SHA-1 fails with `Length`, and `TrailingData` with the number of bytes
    /// after a certificate.
    pub fn from_bytes(bytes: &'a [u8]) -> Result<CertificateRef<'a>>
        ensures keeps { Keeps certificate_bytes cause (whole certificate_at bytes.now)
            bytes.now result }
        ensures accepts { AcceptsAll certificate_of SpellsCertificate bytes.now result }
    {
        let (parts, rest) = split_parts(bytes)?;
        let signature = signature_in(rest)?;
        Ok(CertificateRef {
            bytes,
            signed: &bytes[..bytes.len() - rest.len()],
            parts,
            signature,
        })
    }

    /// The bytes that the certificate was read from.
    pub fn as_bytes(&self) -> &'a [u8]
        ensures bytes { result.now ≡ certificate_bytes self.now }
        ensures spelled { SpellsCertificate (certificate_of self.now) result.now }
    {
        self.bytes
    }
}

/// The signature in the string that all the bytes are.
fn signature_in(bytes: &[u8]) -> Result<SignatureRef<'_>>
    ensures { TakesWhole IsSignatureIn cause (whole (box_at (whole signature_at)) bytes.now)
        result }
{
    let (signature, rest) = split_signature(bytes)?;
    if !rest.is_empty() {
        return Err(Error::Encoding(encoding::Error::TrailingData {
            remaining: rest.len(),
        }));
    }
    Ok(signature)
}
