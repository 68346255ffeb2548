//! The terms that a format is made of: a value after another, a value in a string, a list of values
//! after their number or up to the end, and a value that fails with the wider error.
//!
//! Each term is a [`Decode`](sshkey_base::Decode), proved once, so that a record of several fields
//! is one term and a pattern:
//!
//! ```text
//! let Then(e, n) = Then::<Mpint, Mpint>::decode(alloc, reader)?;
//! Ok(RsaPublicKey { e, n })
//! ```
//!
//! What is read off a slice without memory ([`split_bytes`] and its like) stands here too.
#![tactic(auto)]

mod counted;
mod leaves;
mod length_prefixed;
mod read_from;
mod split;
mod then;
mod wide;

pub use counted::{Counted, counted_len, decode_each, encode_counted};
pub use leaves::bytes_from;
pub use length_prefixed::LengthPrefixed;
pub use read_from::ReadFrom;
pub use split::{split_bytes, split_string, split_text, split_u32, split_u64};
pub use then::Then;
pub use wide::Wide;
