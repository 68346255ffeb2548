//! Asks an authority.

use crate::signer::Outside;
use crate::verified::Told;
use crate::words::{NO_LINE, bytes, names, number};
use authority::{Authority, Limits, Request};
use ssh_key::certificate::Field;
use ssh_key::{Error, PublicKey, Result};
use std::alloc::Global;
use std::num::NonZeroU64;

/// The line of the certificate that an authority gives, or why it gives none: what may be asked
/// for, the next serial number, the time, the authority's key, what is asked for, and the nonce.
pub(crate) fn answer(alloc: Global, words: &[&str], told: &Told) -> Result<String> {
    let [
        principals,
        extensions,
        longest,
        serial,
        second,
        signer,
        asked @ ..,
    ] = words
    else {
        return Err(NO_LINE);
    };
    let limits = Limits::new(
        names(alloc, principals)?,
        names(alloc, extensions)?,
        number(longest)?,
    );
    let Some(serial) = NonZeroU64::new(number(serial)?) else {
        return Err(Error::CertificateFieldInvalid(Field::Serial));
    };
    let mut authority = Authority::new(alloc, limits, serial);
    let signer = PublicKey::from_openssh(alloc, signer)?;
    let signer = Outside {
        key: signer.key_data().try_clone(alloc)?,
        told,
    };
    let [.., nonce] = asked else {
        return Err(NO_LINE);
    };
    let nonce = bytes(alloc, nonce)?;
    authority
        .issue(
            alloc,
            request(alloc, asked)?,
            number(second)?,
            nonce,
            &signer,
        )?
        .to_openssh(alloc)
}

/// What is asked for: the line of a key, the key id, the users, the extensions and the window.
fn request(alloc: Global, words: &[&str]) -> Result<Request> {
    let [
        key,
        key_id,
        principals,
        extensions,
        valid_after,
        valid_before,
        _,
    ] = words
    else {
        return Err(NO_LINE);
    };
    let key = PublicKey::from_openssh(alloc, key)?;
    Ok(Request {
        key: key.key_data().try_clone(alloc)?,
        key_id: String::from_str(alloc, key_id)?,
        principals: names(alloc, principals)?,
        extensions: names(alloc, extensions)?,
        valid_after: number(valid_after)?,
        valid_before: number(valid_before)?,
    })
}
