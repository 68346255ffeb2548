//! Values written into rooms that are too short for them.

use crate::bytes::NO_LINE;
use sshkey_base::{
    Algorithm, Decode, Encode, Error, Mpint, Result, SliceWriter, decode_whole, encode_vec,
    encoding,
};
use sshkey_cert::Certificate;
use sshkey_cert_values::OptionsMap;
use sshkey_ciphers::Kdf;
use sshkey_keys::{KeyData, Signature};
use sshkey_pair_kinds::EcdsaPrivateKey;
use sshkey_pairs::KeypairData;
use sshkey_private::PrivateKey;
use sshkey_sshsig::SshSig;
use std::alloc::Global;

/// For how many shorter rooms the value of that kind, which all the bytes spell, is too long, or
/// for which it is not.
pub(crate) fn value(alloc: Global, kind: &str, bytes: &[u8]) -> Result<String> {
    match kind {
        "algorithm" => read::<Algorithm>(alloc, bytes),
        "mpint" => read::<Mpint>(alloc, bytes),
        "list" => read::<Vec<String>>(alloc, bytes),
        "key" => read::<KeyData>(alloc, bytes),
        "signature" => read::<Signature>(alloc, bytes),
        "options" => read::<OptionsMap>(alloc, bytes),
        "certificate" => read::<Certificate>(alloc, bytes),
        "ssh-signature" => read::<SshSig>(alloc, bytes),
        "scalar" => read::<EcdsaPrivateKey<32>>(alloc, bytes),
        "derivation" => read::<Kdf>(alloc, bytes),
        "pair" => read::<KeypairData>(alloc, bytes),
        "private-key" => private_key(alloc, bytes),
        _ => Err(NO_LINE),
    }
}

fn read<T>(alloc: Global, bytes: &[u8]) -> Result<String>
where
    T: Decode + Encode + Drop,
    Error: From<T::Error>,
{
    let value: T = decode_whole(alloc, bytes)?;
    each_room(alloc, &value)
}

fn private_key(alloc: Global, bytes: &[u8]) -> Result<String> {
    each_room(alloc, &PrivateKey::from_bytes(alloc, bytes)?)
}

fn each_room<T: Encode>(alloc: Global, value: &T) -> Result<String> {
    let written = encode_vec(alloc, value)?;
    for len in 0..written.len() {
        let mut room = vec![in alloc; 0; len]?;
        if !is_begun(value, &mut room, &written) {
            return Ok(format!(in alloc; "not too long for {len}")?);
        }
    }
    Ok(format!(in alloc; "too long for each of {}", written.len())?)
}

/// Whether the value is refused as too long for the room, in which the beginning of what is written
/// stands then.
fn is_begun<T: Encode>(value: &T, room: &mut [u8], written: &[u8]) -> bool {
    let mut writer = SliceWriter::new(room);
    let answer = value.encode(&mut writer);
    answer == Err(encoding::Error::Length) && written.starts_with(writer.written())
}
