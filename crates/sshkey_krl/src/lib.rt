//! Key revocation lists, as ssh-keygen(1) writes and sshd(8) reads them (OpenSSH's PROTOCOL.krl).
//!
//! `KrlRef` reads a list in place and says which keys and certificates it revokes. `Krl` owns its
//! bytes, and adds what is to be revoked. Both reject the signatures of a list.
//!
//! # What is proved, tested and trusted
//!
//! It is proved which lists are read, what each revokes, what a list that grows spells, and that
//! reading and asking take no memory. `checks/revoked` compares lists of `ssh-keygen -k`, copies
//! with changed bytes, and lists made here with what `ssh-keygen -Q` says.
#![tactic(auto)]

mod asked_key;
mod authority;
mod encode;
pub mod examples;
mod header;
mod item;
mod krl;
mod krl_ref;
pub mod laws;
mod numbered;
mod part;
mod query;
mod revocations;
mod section;
mod serials;
mod text;

pub use krl::Krl;
pub use krl_ref::KrlRef;
pub use revocations::{NoRevocations, Revocations};
