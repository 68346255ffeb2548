//! Wire encoding: readers, writers, and the values that they carry.
#![tactic(auto)]

mod algorithm;
mod bytes;
pub mod certificate;
mod decode;
mod decode_error;
mod encode;
pub mod encoding;
mod error;
mod hexadecimal;
mod label;
mod label_error;
pub mod laws;
mod list;
mod mpint;
mod name_bytes;
mod normal_form;
mod reader;
mod secret;
mod short_bytes;
mod size;
mod string;
mod text;
mod writer;

pub use algorithm::{Algorithm, AlgorithmName, EcdsaCurve, HashAlg, names};
pub use bytes::{Bytes, erase_slice};
pub use decode::{Decode, decode_front, decode_prefixed, decode_whole};
pub use decode_error::DecodeError;
pub use encode::{Encode, both_len, encode_both, encode_string, encode_vec, string_len, u32_of};
pub use error::{Error, Result};
pub use hexadecimal::{write_lower_hex, write_upper_hex};
pub use label::Label;
pub use label_error::LabelError;
pub use list::{each_len, encode_each, encode_list, list_len};
pub use mpint::Mpint;
pub use normal_form::NormalForm;
pub use reader::{NestedReader, Reader, array_from, length_from};
pub use secret::{Erase, Secret};
pub use short_bytes::ShortBytes;
pub use text::Text;
pub use writer::{SliceWriter, Writer};
