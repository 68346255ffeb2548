//! How what a builder holds is signed.

ghost use Rattle.std.specs.Prelude.{◌≡◌, [], Err, IfOk, IfErr, IsSome, IsNone};
ghost use Rattle.sshkey_keys.specs.Keys.{key_of, stored_algorithm};
ghost use Rattle.sshkey_model.specs.Drafts.{IsSignedDraft, drafted, or_default};
ghost use Rattle.sshkey_model.specs.Fingerprints.{fingerprint};
ghost use Rattle.sshkey_model.specs.Names.{Sha256};
ghost use Rattle.sshkey_cert_builder.specs.Builders.{IsValidExactlyIn, MaySignDraft, draft_of, given_key, no_principals};
ghost use Rattle.sshkey_cert_values.specs.CertificateFields.{to_be_signed_of};
ghost use Rattle.sshkey_cert.specs.Certificates.{certificate_of, certified_key_of, comment_of};
ghost use Rattle.sshkey_cert.specs.Signing.{RefusesToSign};

use super::Builder;
use sshkey_base::certificate::Field;
use sshkey_base::{Bytes, Error, Result, Text};
use sshkey_cert::Certificate;
use sshkey_cert_values::{CertType, CertificateFields};
use sshkey_keys::{KeyData, SigningKey};
use std::alloc::Global;

impl Builder {
    /// Signs what was collected, with the defaults for what was not set: serial number 0, a user,
    /// an empty key id and an empty comment. To OpenSSH 0 is no serial number, by which it can't
    /// revoke: set another.
    ///
    /// A key under a private-use name is not refused. Under that of another kind, as
    /// `ssh-ed25519@openssh.com`, what is signed is a certificate of that kind's key, as `new`
    /// says.
    ///
    /// The certificate is valid, as `validate_at` has it, at each time of its window and at no
    /// other, by the signer's `raw`, for whoever gives the fingerprint of the signer's key and for
    /// nobody else.
    ///
    /// Fails with `CertificateFieldInvalid(Field::ValidPrincipals)` if no principal was named and
    /// not all were made valid, whatever memory there is. Else, unless memory runs out, with
    /// `Length` if the bytes to be signed do not fit. In these cases the signer is not asked. Any
    /// other failure is `Memory` or the signer's own error.
    pub fn sign<S: SigningKey>(self, alloc: Global, signing_key: &S) -> Result<Certificate>
        requires permits { MaySignDraft S.permits S.public_of signing_key.now self }
        ensures unnamed { IsNone (draft_of self).valid_principals → result ≡ Err no_principals }
        ensures signed { IfOk result (λ c. IsSignedDraft (S.Raw.accepts (S.raw_of signing_key.now))
            (key_of (S.public_of signing_key.now)) (draft_of self) (certificate_of c)) }
        ensures algorithm { IfOk result
            (λ c. stored_algorithm (certified_key_of c) ≡ stored_algorithm (given_key self)) }
        ensures comment { IfOk result
            (λ c. comment_of c ≡ or_default [] (draft_of self).comment) }
        ensures valid { IfOk result (λ c. IsValidExactlyIn
            (S.Raw.accepts (S.raw_of signing_key.now))
            (fingerprint Sha256 (key_of (S.public_of signing_key.now)))
            (draft_of self).valid_after (draft_of self).valid_before (certificate_of c)) }
        ensures refused { IsSome (draft_of self).valid_principals
            → IfErr result (RefusesToSign (S.refuses signing_key.now)
            (drafted (draft_of self) (key_of (S.public_of signing_key.now)))) }
    {
        if self.valid_principals.is_none() {
            return Err(Error::CertificateFieldInvalid(Field::ValidPrincipals));
        }
        let signature_key = signing_key.public_key().try_clone(alloc)?;
        let (fields, comment) = self.fields(alloc, signature_key);
        Certificate::sign(alloc, fields, signing_key, comment)
    }

    /// The fields, with the defaults for those that were not set, and the comment. The principals
    /// were named.
    fn fields(self, alloc: Global, signature_key: KeyData) -> (CertificateFields, Text)
        requires { IsSome self.valid_principals }
        ensures key { result.0.public_key ≡ given_key self }
        ensures fields { to_be_signed_of result.0 ≡ drafted (draft_of self) (key_of signature_key) }
        ensures comment { result.1 ≡ or_default [] (draft_of self).comment }
    {
        let Builder {
            alloc: _,
            nonce,
            public_key,
            serial,
            cert_type,
            key_id,
            valid_principals,
            valid_after,
            valid_before,
            critical_options,
            extensions,
            comment,
        } = self;
        let fields = CertificateFields {
            nonce,
            public_key,
            serial: serial.unwrap_or(0),
            cert_type: cert_type.unwrap_or(CertType::User),
            key_id: or_empty(alloc, key_id),
            valid_principals: valid_principals.unwrap(),
            valid_after,
            valid_before,
            critical_options,
            extensions,
            reserved: Bytes::new(Vec::new(alloc)),
            signature_key,
        };
        (fields, or_empty(alloc, comment))
    }
}

/// The text, or an empty one. Does not allocate.
fn or_empty(alloc: Global, text: Option<Text>) -> Text
    ensures { result ≡ or_default [] text }
{
    match text {
        Some(text) => text,
        None => Text::new(String::new(alloc)),
    }
}
