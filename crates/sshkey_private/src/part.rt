//! What a private part holds.

use sshkey_base::Text;
use sshkey_pairs::KeypairData;

/// A checkint, a pair, and a comment.
#[derive(Drop)]
pub(crate) struct Inner {
    pub(crate) checkint: u32,
    pub(crate) pair: KeypairData,
    pub(crate) comment: Text,
}
