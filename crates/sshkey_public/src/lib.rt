//! Key lines, public keys with their comments, and inputs and files, read to their ends.
#![tactic(auto)]

mod blob;
mod file;
pub mod laws;
mod line;
mod line_writer;
mod one_line;
mod public_key;
mod read;
mod words;

pub use blob::Blob;
pub use file::text_of_file;
pub use line::{copy_of_text, make_line, read_line, read_word, write_line};
pub use one_line::{is_one_line, makes_one_line};
pub use public_key::PublicKey;
pub use read::{read_all, read_text, read_within};
pub use sshkey_base64::Base64Reader;
