//! The library for programs in C, and for whoever calls C. `include/rafendilo.h` declares what it
//! exports.
//!
//! Each export is a call itself, and its contract says what it answers. Cryptography stays the
//! caller's, so a decision is two calls: which signatures are to be verified, and what is decided,
//! given what the verification said of each. Each call answers with a number, and the bytes that it
//! answers with are in the caller's room. In C a slice is a pointer and a length, and an allocator
//! is nothing.
//!
//! # What is proved, tested and trusted
//!
//! For all bytes and lengths it is proved that a call reads and writes only the memory that it is
//! given, wraps no sum, ends, and answers as its clauses say.
//!
//! Not proved is the caller's side: true pointers and lengths, bytes that stay the same between
//! question and validation, and in `is_verified` what the verification said. Nor is it proved that
//! the header declares what is exported; `checks/foreign` tests that. `malloc`, `realloc` and
//! `free` are trusted, and what else a caller owes (`include/rafendilo.h`).
#![tactic(auto)]

mod address;
mod certificate;
mod destination;
mod draft;
mod entry;
pub mod examples;
mod forwarding;
mod grant;
mod host;
mod key;
pub mod laws;
mod line;
mod login;
mod normal;
mod parts;
mod pend;
mod questions;
mod refusal;
mod revocation;
mod running;
mod sha512;
mod signature;
mod signer;
mod sources;
mod sshsig;
mod text;
mod time;
mod trust;
mod verdict;
mod version;
mod walk;
