//! The walk over a certificate, from left to right.

ghost use Rattle.sshkey_base.specs.Causes.{cause};
ghost use Rattle.sshkey_model.specs.Certificates.{signed_fields_at};
ghost use Rattle.sshkey_cert_ref.specs.Parts.{AreCertificateParts, Cuts};

use crate::certificate_name::CertificateName;
use crate::certificate_options_ref::CertificateOptionsRef;
use crate::leaves::{Field, KeyInString};
use crate::parts::Parts;
use crate::principals_ref::PrincipalsRef;
use sshkey_base::Result;
use sshkey_cert_values::{CertType, EndTime, UnixTime};
use sshkey_keys_ref::take_body;
use sshkey_terms::{ReadFrom, Then, Wide};

/// The name and the nonce.
type Opening<'a> = Then<CertificateName<'a>, Wide<&'a [u8]>>;

/// The serial number, the type, the key id, and the principals.
type Grant<'a> = Then<
    Then<Wide<u64>, Field<CertType>>,
    Then<Wide<&'a str>, Wide<PrincipalsRef<'a>>>,
>;

/// The two times.
type Window = Then<Field<UnixTime>, Field<EndTime>>;

/// The critical options and the extensions.
type Limits<'a> = Then<CertificateOptionsRef<'a>, CertificateOptionsRef<'a>>;

/// The reserved bytes, and the key that signed.
type Authority<'a> = Then<Wide<&'a [u8]>, KeyInString<'a>>;

/// All fields between the key and the signature.
type AfterKey<'a> = Then<Grant<'a>, Then<Window, Then<Limits<'a>, Authority<'a>>>>;

/// All fields before the signature, and what stands after them.
pub(crate) fn split_parts<'a>(bytes: &'a [u8]) -> Result<(Parts<'a>, &'a [u8])>
    ensures { Cuts AreCertificateParts cause signed_fields_at bytes.now result }
{
    let mut rest = bytes;
    let Then(opening, nonce) = Opening::<'a>::read_from(&mut rest)?;
    let key = take_body(opening.name, &mut rest)?;
    let Then(grant, Then(window, Then(limits, authority))) = AfterKey::<'a>::read_from(&mut rest)?;
    let Then(Then(serial, cert_type), Then(key_id, valid_principals)) = grant;
    let parts = Parts {
        name: opening.name,
        nonce: nonce.0,
        key,
        serial: serial.0,
        cert_type: cert_type.0,
        key_id: key_id.0,
        valid_principals: valid_principals.0,
        valid_after: window.0.0,
        valid_before: window.1.0,
        critical_options: limits.0,
        extensions: limits.1,
        reserved: authority.0.0,
        signature_key: authority.1.0,
    };
    Ok((parts, rest))
}
