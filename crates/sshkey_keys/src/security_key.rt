//! What a security key signs (OpenSSH, PROTOCOL.u2f).

ghost use Rattle.std.specs.Prelude.{◌≡◌, ◌<◌, ◌≤◌, ◌++◌, length, replicate};
ghost use Rattle.sha2.specs.Sha256.{sha256};
ghost use Rattle.sshkey_model.specs.Signatures.{trailer};
ghost use Rattle.sshkey_model.specs.Verification.{security_key_message};

use sha2::{Digest, Sha256};

/// What a security key signs in place of the message (PROTOCOL.u2f), 69 bytes: the SHA-256 digest
/// of the application, the flags and the counter, which are the last five bytes of the signature,
/// and the digest of the message.
///
/// Fewer than five bytes are no signature of a security key; then five zeros stand for them. Does
/// not allocate.
pub fn security_key_message(application: &str, signature: &[u8], message: &[u8]) -> [u8; 69]
    ensures is { 5 ≤ length signature.now →
        result ≡ security_key_message application.now message.now signature.now }
    ensures short { length signature.now < 5 →
        result ≡ security_key_message application.now message.now (replicate 5 0) }
{
    signed_over(application, trailer_of(signature), message)
}

/// The digest of the application, flags and counter, and the digest of the message.
fn signed_over(application: &str, trailer: [u8; 5], message: &[u8]) -> [u8; 69]
    ensures { result ≡ sha256 application.now ++ trailer ++ sha256 message.now }
{
    let front = application_and_trailer(application, trailer);
    let digest: [u8; 32] = Sha256::digest(message);
    let mut signed = [0u8; 69];
    signed[..37].copy_from_slice(&front);
    signed[37..].copy_from_slice(&digest);
    signed
}

/// The digest of the application, flags and counter.
fn application_and_trailer(application: &str, trailer: [u8; 5]) -> [u8; 37]
    ensures { result ≡ sha256 application.now ++ trailer }
{
    let digest: [u8; 32] = Sha256::digest(application);
    let mut bytes = [0u8; 37];
    bytes[..32].copy_from_slice(&digest);
    bytes[32..].copy_from_slice(&trailer);
    bytes
}

/// The flags and the counter, the last five bytes; zeros if there are fewer.
fn trailer_of(signature: &[u8]) -> [u8; 5]
    ensures is { 5 ≤ length signature.now → result ≡ trailer signature.now }
    ensures short { length signature.now < 5 → result ≡ replicate 5 0 }
{
    match signature {
        [.., flags, a, b, c, d] => [*flags, *a, *b, *c, *d],
        _ => [0; 5],
    }
}
