//! RSA signatures that are shorter than the modulus.

ghost use Rattle.std.specs.Prelude.{◌≡◌, ◌<◌, ◌≤◌, ◌+◌, ◌++◌, IfErr, IfOk, length, option_map, replicate, take};
ghost use Rattle.sshkey_keys.specs.Keys.{key_of};
ghost use Rattle.openssh_limits.specs.Padding.{len_in, missing_zeros, padded, padded_blob};

use sshkey_base::{Algorithm, Error, Result};
use sshkey_keys::{KeyData, RawVerifier};
use std::alloc::{AllocError, Global};

/// How many bytes the modulus has at most of an RSA key that OpenSSH reads: 16,384 bits.
const MOST_BYTES: usize = 2048;

/// A verifier that asks the caller's about an RSA signature with the zeros in front that a signer
/// left out, as OpenSSH does (RFC 8332, section 3). One signature in 256 begins with such a zero.
///
/// All else it asks about as it is: signatures under other keys, those that are as long as the
/// modulus or longer, and those under RSA keys of more than 16,384 bits, which OpenSSH does not
/// read. Does not allocate.
pub struct Padding<'a, V> {
    /// The caller's.
    pub verifier: &'a V,
}

impl<V> Drop for Padding<'_, V> {
    fn drop(self) {
        let Padding { verifier: _ } = self;
    }
}

impl<V: RawVerifier> RawVerifier for Padding<'_, V> {
    ghost accepts = { λ p q. V.accepts p.verifier.now (padded q) };

    ghost runs_out = { λ p q. V.runs_out p.verifier.now (padded q) };

    fn verify(
        &self,
        algorithm: &Algorithm,
        key: &KeyData,
        message: &[u8],
        signature: &[u8],
    ) -> std::result::Result<bool, AllocError> {
        let zeros = missing_zeros(key, signature);
        if zeros == 0 {
            return self.verifier.verify(algorithm, key, message, signature);
        }
        let room = room_with(zeros, signature);
        let end = zeros + signature.len();
        self.verifier.verify(algorithm, key, message, &room[..end])
    }
}

/// The bytes of a signature about which `Padding` asks a verifier: with the zeros in front that an
/// RSA signature lacks, and else as they are. For who verifies elsewhere. Fails only when out of
/// memory.
pub fn padded_signature(alloc: Global, key: &KeyData, signature: &[u8]) -> Result<Vec<u8>>
    ensures value { IfOk result
        (λ padded. padded.items ≡ padded_blob (key_of key.now) signature.now) }
    ensures refused { IfErr result (λ e. e ≡ Error.Memory) }
{
    let mut padded = Vec::new(alloc);
    padded.resize(missing_zeros(key, signature), 0)?;
    padded.extend_from_slice(signature)?;
    Ok(padded)
}

/// How many zeros the signature lacks in front under the key: those by which it is shorter than the
/// modulus of an RSA key of at most 16,384 bits, and else none.
fn missing_zeros(key: &KeyData, signature: &[u8]) -> usize
    ensures is { result ≡ missing_zeros (key_of key.now) signature.now }
    ensures fits { 0 < result → result + length signature.now ≤ 2048 }
{
    match key {
        KeyData::Rsa(key) => len_in(key.n.as_positive_bytes()).saturating_sub(signature.len()),
        KeyData::Dsa(_)
        | KeyData::Ecdsa(_)
        | KeyData::Ed25519(_)
        | KeyData::SkEcdsaSha2NistP256(_)
        | KeyData::SkEd25519(_)
        | KeyData::Other(_) => 0,
    }
}

/// How many bytes a positive number has that OpenSSH reads; 0 of any other.
fn len_in(number: Option<&[u8]>) -> usize
    ensures is { result ≡ len_in (option_map (λ bytes. bytes.now) number.entry) }
    ensures most { result ≤ 2048 }
{
    match number {
        Some(bytes) if bytes.len() <= MOST_BYTES => bytes.len(),
        _ => 0,
    }
}

/// A room that begins with so many zeros, and then the bytes.
fn room_with(zeros: usize, bytes: &[u8]) -> [u8; MOST_BYTES]
    requires { zeros + length bytes.now ≤ 2048 }
    ensures { take (zeros + length bytes.now) result ≡ replicate zeros 0 ++ bytes.now }
{
    let mut room = [0; MOST_BYTES];
    room[zeros..zeros + bytes.len()].copy_from_slice(bytes);
    room
}
