//! Base64 as it stands in key lines (RFC 4648, section 4), read and written block by block, and the
//! armour of an SSH signature, as `ssh-keygen -Y sign` writes it.
#![tactic(auto)]

mod armour;
mod base64_reader;
pub mod examples;
mod groups;
mod history;
mod in_place;
pub mod laws;
mod window;
mod word;

pub use armour::read_armour;
pub use base64_reader::Base64Reader;
pub use in_place::spread;
pub use word::{write_base64, write_word};
