//! What the options of a line of authorized_keys bind a login to (sshd(8), "AUTHORIZED_KEYS FILE
//! FORMAT").
//!
//! # What is proved, tested and trusted
//!
//! It is proved what each option of authorized_keys says, and which values sshd may read otherwise.
//! `checks/logins` and `checks/user-keys` compare the definitions with OpenSSH.
#![tactic(auto)]

pub mod examples;
mod matching;
mod numbers;
mod options;
mod permissions;
mod permits;
mod questions;
mod terms;
mod values;
mod words;

pub use matching::{listens, opens};
pub use permissions::Permissions;
pub use permits::Permit;
pub use sshkey_entries::Reading;
pub use terms::Terms;
pub use values::ANY_TUNNEL;
