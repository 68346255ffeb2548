//! What is drawn from a generator, whose bytes are 00, 01, 02 and so on.

use crate::bytes::{part, text};
use crate::issued;
use sshkey_base::{Result, encode_vec};
use sshkey_cert_builder::Builder;
use sshkey_ciphers::{Kdf, KdfAlg};
use sshkey_doubles::Count;
use sshkey_keys::KeyData;
use sshkey_kinds::Ed25519PublicKey;
use std::alloc::Global;

/// The certificate of a nonce that is drawn for the key that the bytes are, from second 10 to 20,
/// for all principals, signed by that key.
pub(crate) fn certificate(alloc: Global, bytes: &[u8]) -> Result<String> {
    let key = Ed25519PublicKey::try_from(bytes)?;
    let builder = for_all(begun(alloc, key)?)?;
    issued::signed(alloc, builder, key)
}

fn begun(alloc: Global, key: Ed25519PublicKey) -> Result<Builder> {
    let key = KeyData::Ed25519(key);
    Builder::new_with_random_nonce(alloc, &mut Count::new(), key, 10, 20)
}

fn for_all(mut builder: Builder) -> Result<Builder> {
    builder.all_principals_valid()?;
    Ok(builder)
}

/// How a key is derived in the way that the text names, with a salt that is drawn, and of a copy.
pub(crate) fn derivation(alloc: Global, name: &str) -> Result<String> {
    let drawn = Kdf::new(alloc, KdfAlg::new(name)?, &mut Count::new())?;
    let copy = drawn.try_clone(alloc)?;
    let written = encode_vec(alloc, &copy)?;
    Ok(hex::encode(alloc, &written)?)
}
