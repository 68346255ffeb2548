//! Key pairs under private-use names, and pairs of any kind with their names.
#![tactic(auto)]

mod keypair_data;
pub mod laws;
mod opaque;

pub use keypair_data::KeypairData;
pub use opaque::{OpaqueKeypair, OpaqueKeypairBytes, OpaquePrivateKeyBytes};
