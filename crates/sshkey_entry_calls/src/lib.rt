//! Parts of the library for C (`sshkey_c`), for its calls about files of lines, about hosts, and
//! about what a user types or sees.
//!
//! As in `sshkey_calls`, here are steps, structs and what calls answer. The files are
//! authorized_keys, known_hosts, allowed signers and revocation files. A user types addresses,
//! times and a host with its port, and sees the picture of a key. HMAC-SHA1 is that of
//! `sshkey_known_hosts`.
#![tactic(auto)]

pub mod addresses;
mod asked_host;
pub mod authorities;
mod destination;
pub mod entries;
pub mod examples;
pub mod host_answer;
pub mod host_certificate;
pub mod host_key;
mod host_request;
pub mod later_kinds;
pub mod lines;
mod numbers;
pub mod options;
pub mod picture;
mod revocation_files;
pub mod revocations;
pub mod signers;
pub mod sshsig;
mod times;
pub mod unreadable_line;
pub mod verifiers;

pub use addresses::address_of;
pub use asked_host::host_fault_status;
pub use destination::{HostAndPort, read_destination};
pub use entries::EntryParts;
pub use host_request::HostRequest;
pub use options::OptionParts;
pub use revocation_files::RevocationFiles;
pub use times::TimeSpan;
