//! Certificates, and what they hold.

pub use sshkey_base::certificate::Field;
pub use sshkey_cert::{
    Certificate, CertificateRefusal, KeyOrCertificate, TrustedCertificate, contains_fingerprint,
};
pub use sshkey_cert_builder::Builder;
pub use sshkey_cert_ref::{
    CertificateOptions, CertificateOptionsRef, CertificateRef, Principals, PrincipalsRef,
};
pub use sshkey_cert_values::{
    CertType, CertificateFields, EndTime, FOREVER, MAX_SECS, OptionsMap, UnixTime,
};
