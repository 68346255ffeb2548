//! The key of the authority whose certificates a section is about.

ghost use Rattle.std.specs.Prelude.{◌≡◌, ◌≤◌, ◌&&◌, bytes_eq, drop, length, take};
ghost use Rattle.sshkey_model.specs.Keys.{Key, normal_key, SpellsKey};
ghost use Rattle.sshkey_model.specs.Parts.{flat};
ghost use Rattle.sshkey_keys_ref.specs.Keys.{key_bytes};
ghost use Rattle.sshkey_krl.specs.Writing.{authority_of, ssh_rsa, is_read_authority};
ghost use Rattle.sshkey_krl.specs.Krls.{is_read_signer};

use openssh_limits::{LEAST_RSA_BITS, is_read_key_ref, openssh_reads_key};
use sshkey_keys::KeyData;
use sshkey_keys_ref::KeyDataRef;

/// The string `ssh-rsa`, before the body of an RSA key.
const SSH_RSA: &[u8] = b"\0\0\0\x07ssh-rsa";

/// Whether OpenSSH reads the key, and so a list that names it as an authority's.
pub(crate) fn is_read_signer(key: &KeyDataRef<'_>) -> bool
    ensures { (k : Key) → SpellsKey k (key_bytes key.now) → result ≡ is_read_signer k }
{
    is_read_key_ref(key, LEAST_RSA_BITS)
}

/// Whether OpenSSH reads the key, where one is given.
pub(crate) fn is_read_authority(authority: Option<&KeyData>) -> bool
    ensures { result ≡ is_read_authority (authority_of authority.entry) }
{
    match authority {
        Some(key) => openssh_reads_key(key, LEAST_RSA_BITS),
        None => true,
    }
}

/// Whether the bytes are the normal form of the key.
pub(crate) fn is_normal_form(bytes: &[u8], key: &KeyDataRef<'_>) -> bool
    ensures { (k : Key) → SpellsKey k (key_bytes key.now) →
        result ≡ bytes_eq bytes.now (flat (normal_key k)) }
{
    match key.normal_bytes() {
        Some(normal) => bytes == normal,
        None => is_renamed(bytes, key.as_bytes()),
    }
}

/// Whether the bytes are the string `ssh-rsa`, and then what stands after the first 16 of the
/// others, which are the string `rsa-sha2-256` or `rsa-sha2-512`.
#[tactic(auto, using(crate::proofs::Authorities::authorities))]
fn is_renamed(bytes: &[u8], hashed: &[u8]) -> bool
    ensures { 16 ≤ length hashed.now → result ≡ (bytes_eq (take 11 bytes.now) ssh_rsa &&
        bytes_eq (drop 11 bytes.now) (drop 16 hashed.now)) }
{
    if hashed.len() < 16 {
        return false;
    }
    if bytes.len() < 11 {
        return false;
    }
    &bytes[..11] == SSH_RSA && &bytes[11..] == &hashed[16..]
}
