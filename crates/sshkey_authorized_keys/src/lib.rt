//! authorized_keys: who may log in (sshd(8), "AUTHORIZED_KEYS FILE FORMAT").
//!
//! # What is proved, tested and trusted
//!
//! It is proved which lines are entries, and what the options of a line are. Only OpenSSH can tell
//! whether the definitions are right: `checks/entry-lines` compares drawn lines and 120 texts of
//! options with it, and `checks/logins` 279 logins at a real sshd.
#![tactic(auto)]

mod authorized_keys;
mod config_opts;
mod entry;
pub mod laws;
mod openssh;
mod openssh_option;
mod openssh_options;
mod option_syntax;
mod read_back;

pub use authorized_keys::AuthorizedKeys;
pub use config_opts::{ConfigOpts, ConfigOptsIter};
pub use entry::Entry;
pub use openssh::{OpenSshAuthorizedKeys, OpenSshEntry, bytes_split_options, split_options};
pub use openssh_option::{OpenSshOption, OpenSshOptionsIter};
pub use openssh_options::{OpenSshOptions, read_options};
