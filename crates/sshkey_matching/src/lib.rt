//! Whom a line or a certificate is for: patterns of names and lists of them (ssh_config(5),
//! "PATTERNS"); where a client may come from, by the critical option `source-address` and the
//! option `from`, as sshd(8) reads them, and stricter where its reading of addresses is odd; under
//! which name known_hosts and certificates list a host (ssh(1)); and the times of allowed signers
//! and of `expiry-time`.
//!
//! # What is proved, tested and trusted
//!
//! It is proved which names a list of patterns matches, which lists let which client in and which
//! are malformed, without memory, which texts are times, and which seconds each may mean.
//! `checks/hosts` and `checks/addresses` compare the definitions with OpenSSH: of 2,000 questions
//! none is answered "in" that its own code refuses, and 120 logins at a real sshd agree. It is
//! trusted that OpenSSH reads times so, by strptime(3) of glibc: 31 days in each month, 62 seconds
//! in a minute, zones of 14 and 13 hours.
#![tactic(auto)]

mod bits;
pub mod examples;
mod from;
mod host;
mod likeness;
mod malformed;
mod network;
mod pattern;
mod pattern_list;
mod source_address;
mod times;

pub use from::{FromFault, from_allows, from_allows_at};
pub use host::{AskedHost, HostFault, asked_host};
pub use malformed::Malformed;
pub use pattern::{LetterCase, matches_pattern};
pub use pattern_list::{
    bytes_match_pattern_list, is_named_by, is_refused_by, is_short_pattern, matches_pattern_list,
    split_first_pattern, split_pattern,
};
pub use source_address::{is_source_list, may_come_from, source_address_allows};
pub use times::{Span, has_time_form, read_time};
