//! Certificates (PROTOCOL.certkeys), and whether bytes are the normal form of one.
#![tactic(auto)]

mod certificate;
mod form;
mod key_or_certificate;
pub mod laws;

pub use certificate::{
    Certificate, CertificateRefusal, TrustedCertificate, contains_fingerprint,
    refusal_of_authority_or_time, refusal_with_principal, result_of_refusal,
};
pub use form::is_normal_form;
pub use key_or_certificate::KeyOrCertificate;
