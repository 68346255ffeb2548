//! Lists of values, one after the other: after their number, or up to the end of the reader.
//!
//! [`Counted`] is a term as the others are: any value that is a [`Decode`](sshkey_base::Decode) may
//! stand in it.

mod read;
mod to_end;
mod write;

pub use read::Counted;
pub use to_end::decode_each;
pub use write::{counted_len, encode_counted};
