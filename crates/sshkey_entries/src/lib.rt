//! Entry files: what the entries of authorized_keys and known_hosts are, as mathematics, and what
//! the readers of both stand on, whatever their entries are.
//!
//! # What is proved, tested and trusted
//!
//! It is proved which lines are entries, by definitions over whole lines. Only OpenSSH can tell
//! whether the definitions are right: `checks/entry-lines` compares 2,400 drawn lines with it.
#![tactic(auto)]

mod add_options;
mod blanks;
pub mod bytes;
mod entry_lines;
pub mod examples;
mod from_line;
mod key_fields;
pub mod laws;
mod non_blank_byte_lines;
mod non_blank_lines;
mod other_key;
mod reading;
mod words;

pub use add_options::AddOptions;
pub use blanks::{is_white, skip_blanks, split_blank};
pub use entry_lines::{EntryLines, EntryTexts};
pub use from_line::{FromLine, entries_of_file, entries_of_text};
pub use key_fields::{read_key_bytes, read_key_fields};
pub use non_blank_byte_lines::NonBlankByteLines;
pub use non_blank_lines::NonBlankLines;
pub use other_key::{
    are_other_key_fields, bytes_are_former_key_fields, bytes_are_other_key_fields, is_short_name,
};
pub use reading::Reading;
pub use sshkey_matching::{
    LetterCase, bytes_match_pattern_list, is_named_by, is_refused_by, is_short_pattern,
    matches_pattern, matches_pattern_list, split_first_pattern, split_pattern,
};
pub use words::find_word;
