//! Lines of a revocation file that is a text.

ghost use Rattle.std.specs.Prelude.{◌≡◌, ◌↔◌, ◌<◌, IsTrue, length, true, false, IfErr, IfOk, if◌then◌else◌, ◌∷◌};
ghost use Rattle.std.specs.Str.{IsUtf8};
ghost use Rattle.sshkey_base.specs.declared.encoding.Error.TheVariants.{CharacterEncoding};
ghost use Rattle.sshkey_base.specs.declared.error.Error.TheVariants as wide;
ghost use Rattle.sshkey_base.specs.declared.error.Error.TheVariants.{Memory};
ghost use Rattle.sshkey_cert.specs.Certificates.{certificate_of};
ghost use Rattle.sshkey_entries.specs.Answers.{AsksEntries, AsksEntry, ReadsEntries, ReadsEntry, RefusesFor};
ghost use Rattle.sshkey_entries.specs.Fields.{is_filled};
ghost use Rattle.sshkey_keys.specs.Keys.{key_of};
ghost use Rattle.sshkey_model.specs.Keys.{normal_key};
ghost use Rattle.sshkey_model.specs.Parts.{flat};
ghost use Rattle.sshkey_revoked_keys.specs.RevokedKeys.{HasNamedFault, IsReadCertificate, IsReadKey, NeedsKey, SaysKey, HasLineFault, NeedsEntry, NeedsLine, RevokesKey, is_certified_name, revoked_lines};

use crate::later_key::read_later_key;
use crate::named_word::read_named;
use openssh_limits::{
    LEAST_RSA_BITS, openssh_reads_key, openssh_reads_principals, openssh_reads_text,
};
use sshkey_base::{Algorithm, Error, Result, encode_vec, encoding};
use sshkey_cert::Certificate;
use sshkey_entries::bytes::{first_line_end, is_filled, skip_blanks, split_blank, split_word};
use sshkey_keys::KeyData;
use std::alloc::Global;
use std::str;

/// The normal forms of the keys that the lines of a text revoke, in order, or the error of the
/// first line that cannot be read.
pub(crate) fn read_lines(alloc: Global, text: &[u8]) -> Result<Vec<Vec<u8>>>
    ensures reads { ReadsEntries (λ key. key.items) RevokesKey HasLineFault
        (revoked_lines text.now) result }
    ensures asks { AsksEntries RevokesKey NeedsLine (revoked_lines text.now) result }
{
    let mut keys = Vec::new(alloc);
    let mut rest = text;
    'lines: while !rest.is_empty() {
        let (line, after) = split_line(rest);
        if is_filled(line) {
            keys.push(read_line(alloc, line)?)?;
        }
        rest = after;
    }
    Ok(keys)
}

/// The text up to its first line feed, without the blanks at its front, and what follows the line
/// feed.
fn split_line(text: &[u8]) -> (&[u8], &[u8])
    requires { 0 < length text.now }
    ensures lines { revoked_lines text.now ≡ (if is_filled result.0.now
        then result.0.now ∷ revoked_lines result.1.now else revoked_lines result.1.now) }
    ensures less { length result.1.now < length text.now }
{
    match first_line_end(text) {
        Some(end) => (skip_blanks(&text[..end]), &text[end + 1..]),
        None => (skip_blanks(text), &[]),
    }
}

/// The normal form of the key that the line revokes.
fn read_line(alloc: Global, line: &[u8]) -> Result<Vec<u8>>
    ensures reads { ReadsEntry (λ key. key.items) RevokesKey line.now result }
    ensures fault { RefusesFor HasLineFault line.now result }
    ensures asks { AsksEntry NeedsEntry line.now result }
{
    let (name, after) = split_blank(line);
    let (word, _) = split_word(skip_blanks(after));
    if word.is_empty() {
        return Err(Error::Encoding(encoding::Error::Length));
    }
    let name = text_of(name)?;
    let word = text_of(word)?;
    if names_certificate(name) {
        read_certified_key(alloc, name, word)
    } else {
        read_key(alloc, name, word)
    }
}

/// The bytes as a text.
fn text_of(bytes: &[u8]) -> Result<&str>
    ensures text { IfOk result (λ text. IsUtf8 bytes.now × (text.now ≡ bytes.now)) }
    ensures none { IfErr result
        (λ e. (e ≡ wide.Encoding CharacterEncoding) × ¬ IsUtf8 bytes.now) }
{
    match str::from_utf8(bytes) {
        Ok(text) => Ok(text),
        Err(_) => Err(Error::Encoding(encoding::Error::CharacterEncoding)),
    }
}

/// Whether it is the name of an algorithm in certificates.
fn names_certificate(name: &str) -> bool
    ensures { result ≡ is_certified_name name.now }
{
    Algorithm::check_certificate(name).is_ok()
}

/// The normal form of the key in a certificate.
fn read_certified_key(alloc: Global, name: &str, word: &str) -> Result<Vec<u8>>
    ensures reads { ReadsEntry (λ key. key.items) (SaysKey true name.now) word.now result }
    ensures fault { RefusesFor (HasNamedFault true name.now) word.now result }
    ensures asks { AsksEntry (NeedsKey true name.now) word.now result }
{
    let certificate = read_named::<Certificate>(alloc, name, word)?;
    if !is_read_certificate(&certificate) {
        return Err(Error::FormatEncoding);
    }
    normal_form(alloc, certificate.public_key())
}

/// The normal form of a key, or the bytes of one of a later kind.
fn read_key(alloc: Global, name: &str, word: &str) -> Result<Vec<u8>>
    ensures reads { ReadsEntry (λ key. key.items) (SaysKey false name.now) word.now result }
    ensures fault { RefusesFor (HasNamedFault false name.now) word.now result }
    ensures asks { AsksEntry (NeedsKey false name.now) word.now result }
{
    if let Some(blob) = read_later_key(alloc, name, word)? {
        return Ok(blob);
    }
    let key = read_named::<KeyData>(alloc, name, word)?;
    if !is_read_line_key(&key) {
        return Err(Error::FormatEncoding);
    }
    normal_form(alloc, &key)
}

/// Whether OpenSSH reads the certificate, but for its signature.
fn is_read_certificate(certificate: &Certificate) -> bool
    ensures { IsTrue result ↔ IsReadCertificate (certificate_of certificate.now) }
{
    is_read_line_key(certificate.public_key())
        && openssh_reads_key(certificate.signature_key(), LEAST_RSA_BITS)
        && openssh_reads_text(certificate.key_id())
        && openssh_reads_principals(certificate.valid_principals())
}

/// Whether OpenSSH reads the key, or passes it over since it is too short.
fn is_read_line_key(key: &KeyData) -> bool
    ensures { IsTrue result ↔ IsReadKey (key_of key.now) }
{
    openssh_reads_key(key, 0)
}

/// The bytes of the normal form of a key, whose parts were read. Fails only when out of memory.
fn normal_form(alloc: Global, key: &KeyData) -> Result<Vec<u8>>
    ensures bytes { IfOk result (λ bytes. bytes.items ≡ flat (normal_key (key_of key.now))) }
    ensures memory { IfErr result (λ e. e ≡ Memory) }
{
    match encode_vec(alloc, key) {
        Ok(bytes) => Ok(bytes),
        Err(_) => Err(Error::Memory),
    }
}
