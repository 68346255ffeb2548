//! How words spell what is revoked.

use crate::words::bytes;
use ssh_key::Result;
use ssh_key::revocation::Krl;
use std::alloc::Global;

/// What reading the lists gave that the words spell, each in hexadecimal digits. One that is no list
/// revokes everything.
pub(crate) fn read_lists(alloc: Global, words: &[&str]) -> Result<Vec<Result<Krl>>> {
    let mut found = Vec::new(alloc);
    for digits in words {
        found.push(Krl::from_vec(bytes(alloc, digits)?))?;
    }
    Ok(found)
}
