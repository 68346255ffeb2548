//! Ciphers, what stands around what they encrypt, and key derivations.

use super::support::is_wanted;
use sshkey_base::{Error, Result, SliceWriter, encoding};
use sshkey_ciphers::{Cipher, Kdf, KdfAlg, ciphertext_from, encode_padded, padding_from, tag_from};
use sshkey_doubles::Count;
use std::alloc::Global;

/// Whether a key is derived in the way that the text names, with a salt that is drawn.
fn is_some(alloc: Global, name: &str) -> Result<(bool, bool)> {
    let kdf = Kdf::new(alloc, KdfAlg::new(name)?, &mut Count::new())?;
    Ok((kdf.is_some(), kdf.is_bcrypt()))
}

#[test]
fn derivations(rt: HostRuntime) {
    assert!(rt; is_wanted(is_some(rt.alloc(), "bcrypt"), Ok((true, true))));
    assert!(rt; !Kdf::None.is_some() && !Kdf::None.is_bcrypt());
}

/// A cipher has that name, size of blocks and tag, as in OpenSSH's table of ciphers.
fn is_cipher(name: &str, block_size: usize, has_tag: bool) -> bool {
    match Cipher::new(name) {
        Ok(cipher) => {
            cipher.as_str() == name
                && cipher.block_size() == block_size
                && cipher.has_tag() == has_tag
                && cipher.padding_len(1) == block_size - 1
                && cipher.is_some() == (name != "none")
        }
        Err(_) => false,
    }
}

#[test]
fn ciphers(rt: HostRuntime) {
    assert!(rt; is_cipher("none", 8, false));
    assert!(rt; is_cipher("aes256-cbc", 16, false));
    assert!(rt; is_cipher("aes256-ctr", 16, false));
    assert!(rt; is_cipher("aes256-gcm@openssh.com", 16, true));
    assert!(rt; is_cipher("chacha20-poly1305@openssh.com", 8, true));
    assert!(rt; is_cipher("3des-cbc", 8, false));
    assert!(rt; Cipher::new("aes256-xts").is_err());
    assert!(rt; KdfAlg::new("scrypt").is_err());
}

/// The string of a ciphertext of 16 bytes, and a tag (OpenSSH, PROTOCOL.key).
const SEALED: [u8; 36] = *b"\0\0\0\x10ciphertext of 16a tag of sixteen";

/// The ciphertext and the tag are read for that cipher, and these bytes are left.
fn is_sealed(alloc: Global, cipher: Cipher, tag: Option<[u8; 16]>, rest: &[u8]) -> bool {
    let mut reader = SEALED.as_slice();
    match ciphertext_from(alloc, &mut reader, cipher) {
        Ok(ciphertext) => {
            ciphertext.as_slice() == b"ciphertext of 16".as_slice()
                && is_wanted(tag_from(&mut reader, cipher), Ok(tag))
                && reader == rest
        }
        Err(_) => false,
    }
}

/// Eight bytes are no block of AES.
fn half_a_block_is_refused(alloc: Global) -> bool {
    let mut reader = b"\0\0\0\x08one half".as_slice();
    is_wanted(
        ciphertext_from(alloc, &mut reader, Cipher::Aes256Ctr).err(),
        Some(Error::Crypto),
    )
}

#[test]
fn ciphertexts(rt: HostRuntime) {
    let alloc = rt.alloc();
    assert!(rt; is_sealed(alloc, Cipher::Aes256Gcm, Some(*b"a tag of sixteen"), b""));
    assert!(rt; is_sealed(alloc, Cipher::Aes256Ctr, None, b"a tag of sixteen"));
    assert!(rt; half_a_block_is_refused(alloc));
}

fn is_padding(mut bytes: &[u8]) -> Result<()> {
    padding_from(&mut bytes, 7)
}

#[test]
fn paddings(rt: HostRuntime) {
    let mut room = [0u8; 8];
    let mut writer = SliceWriter::new(&mut room);
    assert!(rt; encode_padded(&513u32, &mut writer).is_ok());
    assert!(rt; writer.written() == [0, 0, 2, 1, 1, 2, 3, 4].as_slice());
    assert!(rt; is_padding(&[]).is_ok() && is_padding(&[1, 2, 3, 4]).is_ok());
    assert!(rt; is_wanted(is_padding(&[1, 2, 4]), Err(Error::FormatEncoding)));
    assert!(rt;
        is_wanted(
            is_padding(&[1, 2, 3, 4, 5, 6, 7, 8]),
            Err(Error::Encoding(encoding::Error::Length))
        )
    );
}
