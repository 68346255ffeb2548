//! Ciphers and key derivations, as private keys name them, and what stands around what they encrypt
//! (OpenSSH, PROTOCOL.key).
#![tactic(auto)]

mod cipher;
mod ciphertext;
pub mod examples;
mod kdf;
mod kdf_alg;
pub mod laws;
mod padding;

pub use cipher::Cipher;
pub use ciphertext::{ciphertext_from, tag_from};
pub use kdf::Kdf;
pub use kdf_alg::KdfAlg;
pub use padding::{encode_padded, padding_from};
