//! Certificates that a builder makes, where a call to which memory was refused is made again: the
//! builder has to be as before.

use crate::again::add;
use crate::bytes::{NO_LINE, part};
use sshkey_base::{Error, Result, decode_whole, encode_vec};
use sshkey_cert::Certificate;
use sshkey_cert_builder::Builder;
use sshkey_cert_values::CertType;
use sshkey_doubles::Fixed;
use sshkey_keys::KeyData;
use sshkey_kinds::Ed25519PublicKey;
use std::alloc::Global;

/// The certificate of the nonce 01 for the key that the first byte string is, from the second that
/// the next one spells to that of the third, or without an end where that is empty, signed by that
/// key. Each byte string after it is told to the builder. In front stands what was refused of that.
pub(crate) fn certificate(alloc: Global, parts: &[Vec<u8>]) -> Result<String> {
    let key = Ed25519PublicKey::try_from(part(parts, 0))?;
    let mut builder = begun(alloc, key, part(parts, 1), part(parts, 2))?;
    let mut shown = String::new(alloc);
    let mut was_refused = false;
    for said in parts.iter().skip(3) {
        let said = std::str::from_utf8(said)?;
        if tell_at_last(alloc, &mut builder, said, &mut shown)? {
            was_refused = true;
        }
    }
    add(&mut shown, &signed(alloc, builder, key)?)?;
    let before = if was_refused {
        "out of memory, then "
    } else {
        ""
    };
    Ok(format!(in alloc; "{before}{shown}")?)
}

fn begun(alloc: Global, key: Ed25519PublicKey, after: &[u8], before: &[u8]) -> Result<Builder> {
    let nonce = Vec::from_slice(alloc, &[1])?;
    let after: u64 = decode_whole(alloc, after)?;
    if before.is_empty() {
        return Builder::new_forever(alloc, nonce, KeyData::Ed25519(key), after);
    }
    let before: u64 = decode_whole(alloc, before)?;
    Builder::new(alloc, nonce, KeyData::Ed25519(key), after, before)
}

/// Tells it to the builder, and once more if memory was refused, which is answered. Adds why it was
/// refused otherwise.
fn tell_at_last(
    alloc: Global,
    builder: &mut Builder,
    said: &str,
    shown: &mut String,
) -> Result<bool> {
    match tell(alloc, builder, said) {
        Err(Error::Memory) => {
            note(alloc, tell(alloc, builder, said), shown)?;
            Ok(true)
        }
        answer => {
            note(alloc, answer, shown)?;
            Ok(false)
        }
    }
}

fn note(alloc: Global, answer: Result<()>, shown: &mut String) -> Result<()> {
    match answer {
        Ok(()) => Ok(()),
        Err(Error::Memory) => Err(Error::Memory),
        Err(error) => add(shown, &error.to_string(alloc)?),
    }
}

/// Makes the call that the text names before its equals sign, with the value after it. `set` and
/// `add` begin the names of calls that answer nothing.
fn tell(alloc: Global, builder: &mut Builder, said: &str) -> Result<()> {
    let (name, value) = said.split_once('=').unwrap_or((said, ""));
    let text = String::from_str(alloc, value)?;
    match name {
        "serial" => done(builder.serial(value.parse().unwrap_or(0))),
        "type" => done(builder.cert_type(type_of(value))),
        "key-id" => done(builder.key_id(text)),
        "comment" => done(builder.comment(text)),
        "principal" => done(builder.valid_principal(text)),
        "all" => done(builder.all_principals_valid()),
        _ => set(alloc, builder, name, value),
    }
}

fn done(answer: Result<&mut Builder>) -> Result<()> {
    answer?;
    Ok(())
}

fn type_of(word: &str) -> CertType {
    if word == "host" {
        CertType::Host
    } else {
        CertType::User
    }
}

fn set(alloc: Global, builder: &mut Builder, name: &str, value: &str) -> Result<()> {
    let text = String::from_str(alloc, value)?;
    match name {
        "set-serial" => builder.set_serial(value.parse().unwrap_or(0)),
        "set-type" => builder.set_cert_type(type_of(value)),
        "set-key-id" => builder.set_key_id(text),
        "set-comment" => builder.set_comment(text),
        "add-principal" => builder.add_valid_principal(text),
        "set-all" => builder.set_all_principals_valid(),
        _ => add_option(alloc, builder, name, value),
    }
}

fn add_option(alloc: Global, builder: &mut Builder, kind: &str, option: &str) -> Result<()> {
    let (name, value) = option.split_once('=').unwrap_or((option, ""));
    let name = String::from_str(alloc, name)?;
    let value = String::from_str(alloc, value)?;
    match kind {
        "critical" => done(builder.critical_option(name, value)),
        "extension" => done(builder.extension(name, value)),
        "add-critical" => builder.add_critical_option(name, value),
        "add-extension" => builder.add_extension(name, value),
        _ => Err(NO_LINE),
    }
}

/// What is written of the builder's certificate, signed by that key, and its comment.
pub(crate) fn signed(alloc: Global, builder: Builder, key: Ed25519PublicKey) -> Result<String> {
    written(alloc, &signed_by(alloc, builder, key)?)
}

fn signed_by(alloc: Global, builder: Builder, key: Ed25519PublicKey) -> Result<Certificate> {
    let signer = Fixed::new(key);
    builder.sign(alloc, &signer)
}

fn written(alloc: Global, certificate: &Certificate) -> Result<String> {
    let bytes = encode_vec(alloc, certificate)?;
    let digits = hex::encode(alloc, &bytes)?;
    let comment = certificate.comment();
    let between = if comment.is_empty() { "" } else { " " };
    Ok(format!(in alloc; "{digits}{between}{comment}")?)
}
