//! How certificates are signed.

ghost use Rattle.std.specs.Prelude.{◌≡◌, IfOk, IfErr, OnOk, true};
ghost use Rattle.sshkey_keys.specs.Blobs.{MakesBlob};
ghost use Rattle.sshkey_keys.specs.Keys.{stored_algorithm};
ghost use Rattle.sshkey_keys.specs.Signatures.{signature_of};
ghost use Rattle.sshkey_model.specs.Certificates.{normal_to_be_signed};
ghost use Rattle.sshkey_cert_values.specs.CertificateFields.{to_be_signed_of};
ghost use Rattle.sshkey_cert.specs.Certificates.{certificate_of, certified_key_of, comment_of, signer_of};
ghost use Rattle.sshkey_cert.specs.Fitting.{signed_fits};
ghost use Rattle.sshkey_cert.specs.Signing.{IsSignatureOf, PermitsToSign, RefusesExactly};

use super::Certificate;
use sshkey_base::{Result, Text};
use sshkey_cert_values::CertificateFields;
use sshkey_keys::{Signature, SigningKey};
use std::alloc::Global;

impl Certificate {
    /// The certificate of these fields, with the signer's signature and that comment.
    ///
    /// A key under a private-use name is not refused. If that is another kind's name, as
    /// `ssh-ed25519@openssh.com` is, the signed bytes are those of a certificate of that kind's
    /// key, and so is the certificate to whoever reads it: refuse such keys before
    /// (`KeyData::is_other`).
    ///
    /// Fails with `Length` if a string in the bytes to be signed would exceed 2^32 - 1 bytes, and
    /// then the signer is not asked. Any other failure is `Memory`, or an error of the signer's
    /// own.
    pub fn sign<S: SigningKey>(
        alloc: Global,
        fields: CertificateFields,
        signing_key: &S,
        comment: Text,
    ) -> Result<Certificate>
        requires permits { PermitsToSign (S.permits signing_key.now) (to_be_signed_of fields) }
        ensures fields { IfOk result (λ c. (certificate_of c).signed ≡ to_be_signed_of fields) }
        ensures algorithm { IfOk result
            (λ c. stored_algorithm (certified_key_of c) ≡ stored_algorithm fields.public_key) }
        ensures signer_algorithm { IfOk result
            (λ c. stored_algorithm (signer_of c) ≡ stored_algorithm fields.signature_key) }
        ensures comment { IfOk result (λ c. comment_of c ≡ comment) }
        ensures signature { IfOk result (λ c.
            IsSignatureOf (S.Raw.accepts (S.raw_of signing_key.now)) (S.public_of signing_key.now)
            (to_be_signed_of fields) (certificate_of c).signature) }
        ensures refused { IfErr result
            (RefusesExactly (S.refuses signing_key.now) (to_be_signed_of fields)) }
    {
        match signature_by(alloc, &fields, signing_key) {
            Ok(signature) => Ok(Certificate {
                fields,
                signature,
                comment,
            }),
            Err(error) => Err(error),
        }
    }
}

/// What the signer makes of the bytes that are signed.
fn signature_by<S: SigningKey>(
    alloc: Global,
    fields: &CertificateFields,
    signing_key: &S,
) -> Result<Signature>
    requires permits { PermitsToSign (S.permits signing_key.now) (to_be_signed_of fields.now) }
    ensures accepted { IfOk result (λ g. IsSignatureOf (S.Raw.accepts (S.raw_of signing_key.now))
        (S.public_of signing_key.now) (to_be_signed_of fields.now) (signature_of g)) }
    ensures fits { OnOk result (signed_fits (to_be_signed_of fields.now) ≡ true) }
    ensures refused { IfErr result
        (RefusesExactly (S.refuses signing_key.now) (to_be_signed_of fields.now)) }
{
    let signed = checked_bytes(alloc, fields)?;
    signing_key.try_sign(alloc, &signed)
}

/// The bytes that are signed, if they fit.
fn checked_bytes(alloc: Global, fields: &CertificateFields) -> Result<Vec<u8>>
    ensures made { MakesBlob (normal_to_be_signed (to_be_signed_of fields.now)) result }
    ensures fits { OnOk result (signed_fits (to_be_signed_of fields.now) ≡ true) }
{
    fields.signed_bytes(alloc)
}
