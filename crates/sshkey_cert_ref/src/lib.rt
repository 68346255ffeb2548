//! Certificates and their lists as slices of the bytes that they were read from
//! (PROTOCOL.certkeys). Reading takes no memory.
//!
//! # What is proved, tested and trusted
//!
//! It is proved that reading takes no memory. Only some of the other calls have a clause that says
//! so; `checks/refused-memory` counts what they ask for. Certificates of each kind of key that
//! OpenSSH made are tested.
#![tactic(auto)]

mod certificate_name;
mod certificate_options_ref;
mod certificate_ref;
mod leaves;
mod parts;
mod principals_ref;
mod strings;
mod walk;

pub use certificate_options_ref::{CertificateOptions, CertificateOptionsRef};
pub use certificate_ref::CertificateRef;
pub use principals_ref::{Principals, PrincipalsRef};
