//! Where the parts of a certificate are in its bytes.

ghost use Rattle.std.specs.Prelude.{◌≡◌, ◌-◌};
ghost use Rattle.sshkey_cert_ref.specs.CertificateRef.{certificate_bytes, certificate_of};
ghost use Rattle.sshkey_calls.specs.Certificates.{ArePartsOf};

use crate::part::Part;
use sshkey_cert_ref::CertificateRef;

/// Where parts of a certificate are in its bytes.
#[repr(C)]
#[derive(Clone, Copy, Debug)]
pub struct CertificateParts {
    /// The key id, a text.
    pub key_id: Part,
    /// The principals, each a string, one after the other.
    pub principals: Part,
    /// The critical options, one after the other.
    pub critical_options: Part,
    /// The extensions, one after the other.
    pub extensions: Part,
    /// The blob of the key that signed.
    pub authority: Part,
}

/// Where the parts of a certificate are, counted from its end.
pub fn parts_of(read: &CertificateRef<'_>) -> CertificateParts
    ensures { ArePartsOf (certificate_of read.now) (certificate_bytes read.now) result }
{
    let end = read.as_bytes().len();
    let signature = end.saturating_sub(read.signature_ref().as_bytes().len());
    let authority = content_before(signature, read.signature_key_ref().as_bytes().len());
    let reserved = content_before(authority.start, read.reserved().len());
    let extensions = content_before(reserved.start, read.extensions().as_bytes().len());
    let critical_options = content_before(
        extensions.start,
        read.critical_options().as_bytes().len(),
    );
    let without_window = critical_options.start.saturating_sub(16);
    let principals = content_before(without_window, read.valid_principals().as_bytes().len());
    let key_id = content_before(principals.start, read.key_id().len());
    CertificateParts {
        key_id,
        principals,
        critical_options,
        extensions,
        authority,
    }
}

/// The content of that length that ends four bytes before that place. All of it is there, so
/// nothing saturates.
fn content_before(next: usize, length: usize) -> Part
    ensures start { result.start ≡ (next - 4) - length }
    ensures length { result.length ≡ length }
{
    Part {
        start: next.saturating_sub(4).saturating_sub(length),
        length,
    }
}
