//! Fields of SSH signatures that are judged by themselves.

ghost use Rattle.std.specs.Prelude.{◌<◌, length};

use sshkey_base::Text;

/// The six bytes `SSHSIG`.
#[derive(Drop)]
pub(super) struct Magic(pub(super) [u8; 6]);

/// A version that is read, 0 or 1.
#[derive(Drop)]
pub(super) struct Version {
    pub(super) number: u32,
    pub ghost low: { number < 2 },
}

/// A namespace, which is not empty.
#[derive(Drop)]
pub(super) struct Namespace {
    pub(super) text: Text,
    pub ghost some: { 0 < length text },
}
