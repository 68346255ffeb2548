//! Parts of the library for C (`sshkey_c`), for its calls about keys, signatures, certificates and
//! revocation lists.
//!
//! Here are the steps of these calls, the structs that they answer with, and in mathematics what
//! they answer.
#![tactic(auto)]

pub mod certified_key;
mod digest;
pub mod draft;
pub mod draft_fields;
pub mod fields;
mod given_answer;
pub mod key;
pub mod laws;
pub mod line;
pub mod lists;
pub mod normal;
pub mod number;
pub mod option;
pub mod part;
pub mod question;
pub mod revocation;
pub mod signature;
pub mod signed;
pub mod sshsig;
pub mod validity;
pub mod write;

pub use digest::{Sha256Digest, Sha512Digest, contains_fingerprint};
pub use draft::CertificateDraft;
pub use fields::CertificateFields;
pub use given_answer::GivenAnswer;
pub use line::Line;
pub use lists::CertificateParts;
pub use option::OptionParts;
pub use part::Part;
pub use question::{Question, add_question};
