//! Callers of Rafendilo, proved from the public contracts of its crates alone.
//!
//! Each is what a program of yours would write, and its contract is what such a program may rely
//! on. Copy them. `find_signer` says which of the deploy keys of a text signed a tag.
//!
//! # What is proved, tested and trusted
//!
//! Each caller is proved from public contracts alone, in both directions: one that always refused,
//! but for `Memory`, would not be. `checks/callers` compares `find_signer` with `ssh-keygen`. The
//! verifier that a caller is given is trusted.
#![tactic(auto)]

mod host_certificate;
mod key_blob;
mod normal_blob;
mod own_rule;
mod signed;
mod signer;

pub use host_certificate::check_host;
pub use key_blob::read_key;
pub use normal_blob::is_normal_blob;
pub use own_rule::log_in_without_root;
pub use signed::is_signed;
pub use signer::find_signer;
