//! All of a certificate that its signature is over.

ghost use Rattle.std.specs.Prelude.{◌+◌, ◌*◌, ◌^◌, ◌<◌};
ghost use Rattle.sshkey_model.specs.Certificates.{SignedFields, normal_to_be_signed, to_be_signed_format};
ghost use Rattle.sshkey_keys.specs.Blobs.{MakesBlob};

mod copy;
mod limits;
mod write;

use crate::{CertType, EndTime, OptionsMap, UnixTime};
use limits::Limits;
use sshkey_base::{
    Algorithm, Bytes, Decode, Encode, Error, Reader, Result, Text, Writer, encode_vec, encoding,
};
use sshkey_keys::KeyData;
use sshkey_terms::{LengthPrefixed, Then, Wide};
use std::alloc::Global;

/// All of a certificate but its signature and its comment (PROTOCOL.certkeys).
#[derive(Debug, Drop, PartialEq, Eq, PartialOrd, Ord)]
pub struct CertificateFields {
    /// A random nonce.
    pub nonce: Bytes,
    /// The certified key.
    pub public_key: KeyData,
    /// The serial number.
    pub serial: u64,
    /// Whether the certificate is for a user or for a host.
    pub cert_type: CertType,
    /// A text that names the key.
    pub key_id: Text,
    /// The users or hosts that it is good for; none are all.
    pub valid_principals: Vec<String>,
    /// The first second of the window.
    pub valid_after: UnixTime,
    /// The first second after the window, or that there is none.
    pub valid_before: EndTime,
    /// The options that a reader has to know.
    pub critical_options: OptionsMap,
    /// The options that a reader may ignore.
    pub extensions: OptionsMap,
    /// Bytes that have no meaning yet.
    pub reserved: Bytes,
    /// The key that signs.
    pub signature_key: KeyData,
}

impl CertificateFields {
    ghost use Rattle.sshkey_cert_values.specs.CertificateFields.{to_be_signed_of};

    /// The bytes that the signature is over, newly allocated.
    ///
    /// Fails with `Length` exactly if a string in them would exceed 2^32 - 1 bytes, and otherwise
    /// only when out of memory.
    pub fn signed_bytes(&self, alloc: Global) -> Result<Vec<u8>>
        ensures { MakesBlob (normal_to_be_signed (to_be_signed_of self.now)) result }
    {
        Ok(encode_vec(alloc, self)?)
    }
}

/// The first thirteen fields, read once from left to right.
///
/// A sound source is rejected, unless memory runs out, only if they are not at its front, with the
/// first of these from the left: `Length` for a stated length that passes the bytes, `Label` for a
/// name of no algorithm, `CharacterEncoding` for a text that is not UTF-8, `FormatEncoding` for a
/// type other than 1 and 2 and for options that are not in ascending order of their names, `Time`
/// for a time above 2^63 - 1 (but 2^64 - 1 is allowed as `valid_before`), the faults of keys, and
/// `TrailingData` with the number of bytes that follow a key or a value in its string.
#[tactic(auto, using(sshkey_base::proofs::Places::places, crate::proofs::Lawful::to_be_signed_lawful))]
impl Decode for CertificateFields {
    ghost use Rattle.sshkey_cert_values.specs.CertificateFields.{to_be_signed_of};

    type Error = Error;

    ghost Meaning = { SignedFields };

    ghost means = { to_be_signed_of };

    ghost format = { to_be_signed_format };

    fn lawful() {}

    fn decode<R: Reader>(alloc: Global, reader: &mut R) -> Result<CertificateFields> {
        type Names = Then<Wide<Text>, Then<Wide<Vec<String>>, Limits>>;
        type AfterKey = Then<Wide<u64>, Then<CertType, Names>>;
        let algorithm = Algorithm::decode_certificate(alloc, reader)?;
        let Wide(nonce) = Wide::<Bytes>::decode(alloc, reader)?;
        let public_key = KeyData::decode_as(alloc, reader, algorithm)?;
        let Then(Wide(serial), Then(cert_type, names)) = AfterKey::decode(alloc, reader)?;
        let Then(Wide(key_id), Then(Wide(valid_principals), Limits(limits))) = names;
        let Then(valid_after, Then(valid_before, Then(critical_options, options))) = limits;
        let Then(extensions, Then(Wide(reserved), LengthPrefixed(signature_key))) = options;
        Ok(CertificateFields {
            nonce,
            public_key,
            serial,
            cert_type,
            key_id,
            valid_principals,
            valid_after,
            valid_before,
            critical_options,
            extensions,
            reserved,
            signature_key,
        })
    }
}

/// The first thirteen fields, in their normal form.
#[tactic(auto, using(sshkey_base::proofs::Writing::writing, sshkey_base::proofs::Writing::measuring))]
impl Encode for CertificateFields {
    ghost use Rattle.sshkey_cert_values.specs.CertificateFields.{to_be_signed_of};

    ghost normal = { λ u. normal_to_be_signed (to_be_signed_of u) };

    ghost max_len = { 30 * (2 ^ 32 + 4) };

    fn encoded_len(&self) -> encoding::Result<usize> {
        Ok(
            4 + self.public_key.certificate_name_len()
                + self.nonce.encoded_len()?
                + self.public_key.encoded_key_data_len()?
                + self.grant_len()?,
        )
    }

    fn encode<W: Writer>(&self, writer: &mut W) -> encoding::Result<()> {
        self.public_key.encode_certificate_name(writer)?;
        self.nonce.encode(writer)?;
        self.public_key.encode_key_data(writer)?;
        self.encode_grant(writer)
    }
}
