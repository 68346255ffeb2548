//! The wire encoding: readers, writers, and what is read and written (RFC 4251, section 5).

pub use sshkey_base::encoding::{Error, Result};
pub use sshkey_base::{
    Bytes, Decode, DecodeError, Encode, Label, LabelError, NestedReader, NormalForm, Reader,
    ShortBytes, SliceWriter, Text, Writer, array_from, both_len, decode_front, decode_prefixed,
    decode_whole, each_len, encode_both, encode_each, encode_list, encode_string, encode_vec,
    erase_slice, length_from, list_len, string_len, u32_of,
};
