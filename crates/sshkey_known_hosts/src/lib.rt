//! known_hosts: which keys hosts have (sshd(8), "SSH_KNOWN_HOSTS FILE FORMAT").
//!
//! # What is proved, tested and trusted
//!
//! Each verdict on a host's key is proved, and that `HmacSha1` is the HMAC of RFC 2104 over SHA-1,
//! which rests on the contract of `sha1`. `checks/hosts` compares 19,200 questions with `ssh-keygen
//! -F`. It is trusted that ssh reads known_hosts as `ssh-keygen -F` does, beyond the hosts about
//! which `checks/callers` asks a real ssh; and so is an HMAC of the caller's own.
#![tactic(auto)]

mod authority;
mod entry;
pub mod examples;
mod held;
mod held_line;
mod hmac_sha1;
mod host_hasher;
mod host_line;
mod host_name;
mod host_patterns;
mod known_hosts;
pub mod laws;
mod made;
mod marker;
mod marker_field;
mod named_hosts;
mod openssh;
mod places;
mod unreadable;
mod verdict;

pub use authority::authorities;
pub use entry::Entry;
pub use held::{hold_lines, texts_for};
pub use held_line::HeldLine;
pub use hmac_sha1::HmacSha1;
pub use host_hasher::HostHasher;
pub use host_patterns::HostPatterns;
pub use known_hosts::KnownHosts;
pub use marker::Marker;
pub use openssh::OpenSshKnownHosts;
pub use places::{LinePlace, PlacedText, place_lines};
pub use unreadable::unreadable_line;
pub use verdict::{Verdict, key_verdict};
