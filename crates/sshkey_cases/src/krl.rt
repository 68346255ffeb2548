//! Key revocation lists.

ghost use Rattle.sshkey_krl.specs.Writing.{authority_of, IsWellFormedAuthority};

use crate::bytes::{NO_LINE, part};
use sshkey_base::{Decode, Result, decode_whole};
use sshkey_keys::KeyData;
use sshkey_krl::{Krl, KrlRef};
use std::alloc::Global;
use std::convert::TryFrom;

/// What the list that the first byte string spells says of the key that the second one is; and of
/// certificates of that key, which the third one signed. Each byte string after it is a serial
/// number and a key id.
pub(crate) fn said(alloc: Global, parts: &[Vec<u8>]) -> Result<String> {
    let list = KrlRef::from_bytes(part(parts, 0))?;
    let mut answer = String::from_str(alloc, word(list.revokes_key(part(parts, 1))))?;
    for certificate in parts.iter().skip(3) {
        answer.push_str(" ")?;
        answer.push_str(word(revokes(alloc, &list, parts, certificate)?))?;
    }
    Ok(answer)
}

/// Whether the list revokes the certificate of the fourth byte string.
pub(crate) fn is_revoked(alloc: Global, parts: &[Vec<u8>]) -> Result<bool> {
    let list = KrlRef::from_bytes(part(parts, 0))?;
    revokes(alloc, &list, parts, part(parts, 3))
}

fn revokes(
    alloc: Global,
    list: &KrlRef<'_>,
    parts: &[Vec<u8>],
    certificate: &[u8],
) -> Result<bool> {
    let mut rest = certificate;
    let serial = u64::decode(alloc, &mut rest)?;
    let key_id = std::str::from_utf8(rest)?;
    Ok(list.revokes_certificate(part(parts, 1), part(parts, 2), serial, key_id))
}

/// The words of ssh-keygen(1).
pub(crate) fn word(is_revoked: bool) -> &'static str {
    if is_revoked { "REVOKED" } else { "ok" }
}

/// The bytes of a list, with the number 7, the date 8 and a comment, of what is revoked: the first
/// byte string is the key of the authority, or empty for everybody. Each one after it is the number
/// of a section or a part, and what is to stand there: one key, the digest of one, serial numbers, a
/// range or a key id.
pub(crate) fn made(alloc: Global, parts: &[Vec<u8>]) -> Result<String> {
    let mut list = Krl::new(alloc, 7, 8, "a list")?;
    if part(parts, 0).is_empty() {
        add_all(alloc, None, parts, &mut list)?;
    } else {
        let authority: KeyData = decode_whole(alloc, part(parts, 0))?;
        add_all(alloc, Some(&authority), parts, &mut list)?;
    }
    Ok(hex::encode(alloc, list.as_bytes())?)
}

fn add_all(
    alloc: Global,
    authority: Option<&KeyData>,
    parts: &[Vec<u8>],
    list: &mut Krl,
) -> Result<()>
    requires { IsWellFormedAuthority (authority_of authority) }
{
    for it in parts.iter().skip(1) {
        add(alloc, authority, it, list)?;
    }
    Ok(())
}

fn add(alloc: Global, authority: Option<&KeyData>, added: &[u8], list: &mut Krl) -> Result<()>
    requires { IsWellFormedAuthority (authority_of authority) }
{
    let Some((number, bytes)) = added.split_first() else {
        return Err(NO_LINE);
    };
    match number {
        2 => {
            let key: KeyData = decode_whole(alloc, bytes)?;
            list.revoke_key(&key)
        }
        3 => list.revoke_sha1(&digest(bytes)?),
        5 => list.revoke_sha256(&digest(bytes)?),
        0x20 => list.revoke_serials(authority, &numbers(alloc, bytes)?),
        0x21 => {
            let ends = numbers(alloc, bytes)?;
            let (Some(first), Some(last)) = (ends.first(), ends.last()) else {
                return Err(NO_LINE);
            };
            list.revoke_range(authority, *first, *last)
        }
        0x23 => list.revoke_key_id(authority, std::str::from_utf8(bytes)?),
        _ => Err(NO_LINE),
    }
}

/// The bytes of a digest.
fn digest<const N: usize>(bytes: &[u8]) -> Result<[u8; N]> {
    <[u8; N]>::try_from(bytes).map_err(|_| NO_LINE)
}

/// The numbers of eight bytes up to the end.
fn numbers(alloc: Global, bytes: &[u8]) -> Result<Vec<u64>> {
    let mut rest = bytes;
    let mut numbers = Vec::new(alloc);
    for _ in 0..bytes.len() / 8 {
        numbers.push(u64::decode(alloc, &mut rest)?)?;
    }
    Ok(numbers)
}
