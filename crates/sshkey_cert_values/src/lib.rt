//! All of a certificate that its signature is over, with what only certificates hold: options, times
//! and types (PROTOCOL.certkeys).
#![tactic(auto)]

mod cert_type;
mod certificate_fields;
mod end_time;
pub mod laws;
mod options_map;
mod unix_time;

pub use cert_type::CertType;
pub use certificate_fields::CertificateFields;
pub use end_time::{EndTime, FOREVER};
pub use options_map::OptionsMap;
pub use unix_time::{MAX_SECS, UnixTime};
