//! The applications of security keys that OpenSSH reads.

ghost use Rattle.std.specs.Prelude.{◌↔◌, IsTrue};
ghost use Rattle.sshkey_keys.specs.Keys.{key_of};
ghost use Rattle.openssh_limits.specs.Limits.{HasReadApplication};

use crate::texts::openssh_reads_text;
use sshkey_keys::KeyData;

/// Returns whether OpenSSH reads the application of a security key as it is: no byte of it is 0.
/// `true` for a key of another kind.
///
/// A verifier is asked about the plain key alone, and so never sees the application. OpenSSH reads
/// `ssh:\0` as `ssh:`, which is another key. Does not allocate.
pub fn openssh_reads_application(key: &KeyData) -> bool
    ensures { IsTrue result ↔ HasReadApplication (key_of key.now) }
{
    match key {
        KeyData::SkEcdsaSha2NistP256(key) => openssh_reads_text(key.application()),
        KeyData::SkEd25519(key) => openssh_reads_text(key.application()),
        KeyData::Dsa(_)
        | KeyData::Ecdsa(_)
        | KeyData::Ed25519(_)
        | KeyData::Rsa(_)
        | KeyData::Other(_) => true,
    }
}
