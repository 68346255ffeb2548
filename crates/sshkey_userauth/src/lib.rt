//! What a client signs for a login by public key, and what is asked about its signature.
//!
//! # What is proved, tested and trusted
//!
//! It is proved which bytes a client signs for a login, that these determine each field, and that
//! service, name and flags are compared before there is a question. That the session identifier is
//! the server's own is for the caller to see to.
#![tactic(auto)]

pub mod examples;
mod judgement;
pub mod laws;
mod refusal;
mod request;

pub use judgement::{CONNECTION, KeyForm, Requirements, check_flag_byte, check_flags, form_under};
pub use refusal::UserauthRefusal;
pub use request::UserauthRequest;
