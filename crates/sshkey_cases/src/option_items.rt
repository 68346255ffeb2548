//! Questions about options one by one, and about entries that are made of them.

use crate::bytes::text;
use sshkey_authorized_keys::{ConfigOpts, Entry, OpenSshOption, OpenSshOptionsIter};
use sshkey_base::Result;
use sshkey_public::PublicKey;
use std::alloc::Global;

/// The option in brackets: its name, and its value after an equals sign.
fn shown(alloc: Global, option: &OpenSshOption<'_>) -> Result<String> {
    let name = option.name();
    match option.value(alloc)? {
        Some(value) => Ok(format!(in alloc; "[{name}={value}]")?),
        None => Ok(format!(in alloc; "[{name}]")?),
    }
}

/// The options of a text.
pub(crate) fn all(alloc: Global, text: &str) -> Result<String> {
    let mut all = String::new(alloc);
    for option in OpenSshOptionsIter::new(text) {
        match option {
            Ok(option) => all.push_str(&shown(alloc, &option)?)?,
            Err(error) => return Err(error),
        }
    }
    Ok(all)
}

/// The option of the entry in a line, which the first text names.
pub(crate) fn named(alloc: Global, parts: &[Vec<u8>]) -> Result<String> {
    let entry = Entry::from_line_openssh(alloc, text(parts, 1)?)?;
    match entry.options().get(text(parts, 0)?)? {
        Some(option) => shown(alloc, &option),
        None => Ok(String::from_str(alloc, "none")?),
    }
}

/// The line of the entry of options and of a key in its line.
pub(crate) fn made(alloc: Global, parts: &[Vec<u8>]) -> Result<String> {
    let options = ConfigOpts::new(alloc, text(parts, 0)?)?;
    let key = PublicKey::from_openssh(alloc, text(parts, 1)?)?;
    Entry::new(alloc, options, key)?.to_string(alloc)
}
