//! Patterns of names, as known_hosts and allowed signers have them (ssh_config(5), "PATTERNS").

pub use sshkey_matching::{LetterCase, matches_pattern, matches_pattern_list};
