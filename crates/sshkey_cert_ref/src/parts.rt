//! The parts of a certificate before its signature.

use crate::certificate_options_ref::CertificateOptionsRef;
use crate::principals_ref::PrincipalsRef;
use sshkey_cert_values::{CertType, EndTime, UnixTime};
use sshkey_keys_ref::KeyDataRef;

/// All of a certificate before its signature, as parts of its bytes.
#[derive(Clone, Copy, Debug)]
pub(crate) struct Parts<'a> {
    /// The name of the algorithm, in the form that it has in certificates.
    pub name: &'a str,
    /// A random nonce.
    pub nonce: &'a [u8],
    /// The body of the certified key.
    pub key: &'a [u8],
    /// The serial number.
    pub serial: u64,
    /// Whether the certificate is for a user or for a host.
    pub cert_type: CertType,
    /// A text that names the key.
    pub key_id: &'a str,
    /// The users or hosts that it is good for; none are all.
    pub valid_principals: PrincipalsRef<'a>,
    /// The first second of the window.
    pub valid_after: UnixTime,
    /// The first second after the window, or that there is none.
    pub valid_before: EndTime,
    /// The options that a reader has to know.
    pub critical_options: CertificateOptionsRef<'a>,
    /// The options that a reader may ignore.
    pub extensions: CertificateOptionsRef<'a>,
    /// Bytes that have no meaning yet.
    pub reserved: &'a [u8],
    /// The key that signs.
    pub signature_key: KeyDataRef<'a>,
}
