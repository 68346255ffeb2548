//! The public keys that OpenSSH reads and lets in.

ghost use Rattle.std.specs.Prelude.{◌≡◌};
ghost use Rattle.sshkey_keys.specs.Keys.{key_of};
ghost use Rattle.sshkey_keys_ref.specs.Keys.{key_bytes, Means, dsa_of, rsa_of};
ghost use Rattle.sshkey_model.specs.Keys.{Key, SpellsKey};
ghost use Rattle.openssh_limits.specs.Limits.{is_uncompressed, openssh_accepts_key, openssh_reads_key, required};

use crate::number::{is_read_number, read_bits};
use crate::texts::has_no_zero;
use sshkey_keys::KeyData;
use sshkey_keys_ref::{DsaRef, KeyDataRef, KeyRef, RsaRef};

/// How many bits an RSA key has at least that OpenSSH reads.
pub const LEAST_RSA_BITS: u32 = 1024;

/// Returns whether OpenSSH lets somebody in by the key: it reads it (`openssh_reads_key`), and it
/// is none of DSA. An RSA key has to have `least_rsa_bits`, as sshd_config(5) has it in
/// `RequiredRSASize`. A number below 1,024 counts as 1,024, which is sshd's own. Does not allocate.
pub fn openssh_accepts_key(key: &KeyData, least_rsa_bits: u32) -> bool
    ensures { result ≡ openssh_accepts_key least_rsa_bits (key_of key.now) }
{
    !matches!(key, KeyData::Dsa(_)) && openssh_reads_key(key, required(least_rsa_bits))
}

/// Returns whether OpenSSH reads the key, where an RSA key has to have `least_rsa_bits`: it is not
/// under a private-use name, each number in it is positive and has at most 16,384 bits, a point
/// begins with 04, and no byte of an application is 0. Does not allocate.
///
/// Whether a point is on its curve is not asked: OpenSSH refuses one that is not.
pub fn openssh_reads_key(key: &KeyData, least_rsa_bits: u32) -> bool
    ensures { result ≡ openssh_reads_key least_rsa_bits (key_of key.now) }
{
    has_read_parts(&KeyRef::from(key), least_rsa_bits)
}

/// Does for a key that is a slice what `openssh_reads_key` does. Does not allocate.
pub fn is_read_key_ref(key: &KeyDataRef<'_>, least_rsa_bits: u32) -> bool
    ensures { (k : Key) → SpellsKey k (key_bytes key.now) →
        result ≡ openssh_reads_key least_rsa_bits k }
{
    has_read_parts(&key.parts(), least_rsa_bits)
}

/// Whether OpenSSH reads the parts of a key.
fn has_read_parts(key: &KeyRef<'_>, least_rsa_bits: u32) -> bool
    ensures { (k : Key) → Means key.now k → result ≡ openssh_reads_key least_rsa_bits k }
{
    match key {
        KeyRef::Dsa(key) => is_read_dsa(key),
        KeyRef::Ecdsa(key) => is_uncompressed(key.as_sec1_bytes()),
        KeyRef::Ed25519(_) => true,
        KeyRef::Rsa(key) => is_read_rsa(key, least_rsa_bits),
        KeyRef::SkEcdsa(key) => {
            is_uncompressed(key.key.as_bytes()) && has_no_zero(key.application)
        }
        KeyRef::SkEd25519(key) => has_no_zero(key.application),
        KeyRef::Other => false,
    }
}

/// The least size of an RSA key: that number, or sshd's own if it is less.
fn required(least_rsa_bits: u32) -> u32
    ensures { result ≡ required least_rsa_bits }
{
    least_rsa_bits.max(LEAST_RSA_BITS)
}

/// Whether OpenSSH reads the numbers of a DSA key.
fn is_read_dsa(key: &DsaRef<'_>) -> bool
    ensures { result ≡ openssh_reads_key 0 (dsa_of key.now) }
{
    is_read_number(key.p.0)
        && is_read_number(key.q.0)
        && is_read_number(key.g.0)
        && is_read_number(key.y.0)
}

/// Whether OpenSSH reads the numbers of an RSA key, and it has so many bits.
fn is_read_rsa(key: &RsaRef<'_>, least_bits: u32) -> bool
    ensures { result ≡ openssh_reads_key least_bits (rsa_of key.now) }
{
    is_read_number(key.e.0) && is_read_number(key.n.0) && least_bits <= read_bits(key.n.0)
}

/// Whether the point begins with 04, so that both coordinates stand there.
fn is_uncompressed(point: &[u8]) -> bool
    ensures { result ≡ is_uncompressed point.now }
{
    matches!(point, [4, ..])
}
