//! The terms that a format is made of: a value after another, a value in a string, a list of values
//! after their number, and a value that fails with the wider error.

pub use sshkey_terms::{
    Counted, LengthPrefixed, Then, Wide, counted_len, decode_each, encode_counted,
};
