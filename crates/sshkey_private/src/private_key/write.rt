//! How private keys are written.

ghost use Rattle.std.specs.Prelude.{◌≡◌, ◌+◌, ◌*◌, ◌^◌, IfOk, ◌<◌};
ghost use Rattle.sshkey_base.specs.Sink.{Encodes, Measures};
ghost use Rattle.sshkey_model.specs.PrivateKeys.{normal_private_key, padded};
ghost use Rattle.sshkey_ciphers.specs.Formats.{tag_bytes};
ghost use Rattle.sshkey_private.specs.PrivateKeys.{private_of, outer_of, part_parts, content_parts, halves_parts, key_parts};
ghost use Rattle.sshkey_public.specs.PublicKeys.{comment_of};

use super::PrivateKey;
use crate::opening::MAGIC;
use sshkey_base::{Encode, Writer, encode_string, encoding, string_len};
use sshkey_ciphers::{Cipher, encode_padded};
use sshkey_pairs::KeypairData;

/// The magic bytes, cipher, key derivation, the number 1, the public key in a string, and the
/// private part.
///
/// That is, of a key that is not encrypted, the checkint twice, the pair and the comment, padded in
/// a string; else the ciphertext in one, and the tag. The comment of an encrypted key is not
/// written.
impl Encode for PrivateKey {
    ghost normal = { λ k. normal_private_key (private_of k) };

    ghost max_len = { 8 * (2 ^ 32 + 4) };

    fn encoded_len(&self) -> encoding::Result<usize> {
        key_len(self)
    }

    fn encode<W: Writer>(&self, writer: &mut W) -> encoding::Result<()> {
        write_key(self, writer)
    }
}

/// How many bytes the fields have.
#[tactic(auto, using(sshkey_base::proofs::Writing::measuring, sshkey_base::proofs::Writing::measuring_leaves))]
fn key_len(key: &PrivateKey) -> encoding::Result<usize>
    ensures measures { Measures (key_parts key.now) result }
    ensures short { IfOk result (λ n. n < 8 * (2 ^ 32 + 4)) }
{
    Ok(
        MAGIC.len()
            + key.cipher.encoded_len()?
            + key.kdf.encoded_len()?
            + 1u32.encoded_len()?
            + key.public_key.key_data().encoded_len_prefixed()?
            + content_len(key)?,
    )
}

/// Writes the fields.
#[tactic(auto, using(sshkey_base::proofs::Writing::writing, sshkey_base::proofs::Writing::plain_bytes))]
fn write_key<W: Writer>(key: &PrivateKey, writer: &mut W) -> encoding::Result<()>
    ensures { Encodes W.fault (key_parts key.now)
        (W.sink writer.old) result (W.sink writer.new) }
{
    writer.write(&MAGIC)?;
    key.cipher.encode(writer)?;
    key.kdf.encode(writer)?;
    write_halves(key, writer)
}

/// Writes the number of keys, the public key and the private part.
#[tactic(auto, using(sshkey_base::proofs::Writing::writing))]
fn write_halves<W: Writer>(key: &PrivateKey, writer: &mut W) -> encoding::Result<()>
    ensures { Encodes W.fault (halves_parts key.now)
        (W.sink writer.old) result (W.sink writer.new) }
{
    1u32.encode(writer)?;
    key.public_key.key_data().encode_prefixed(writer)?;
    write_content(key, writer)
}

/// How many bytes the private part has.
#[tactic(auto, using(sshkey_base::proofs::Writing::measuring, sshkey_base::proofs::Writing::measuring_leaves))]
fn content_len(key: &PrivateKey) -> encoding::Result<usize>
    ensures measures { Measures (content_parts key.now) result }
    ensures short { IfOk result (λ n. n < 2 ^ 32 + 20) }
{
    match key.key_data.encrypted() {
        Some(ciphertext) => Ok(string_len(ciphertext)? + tag_bytes(&key.tag).len()),
        None => part_of(key).encoded_len_prefixed(),
    }
}

/// Writes the private part.
#[tactic(auto, using(sshkey_base::proofs::Writing::writing, sshkey_base::proofs::Writing::plain_bytes))]
fn write_content<W: Writer>(key: &PrivateKey, writer: &mut W) -> encoding::Result<()>
    ensures { Encodes W.fault (content_parts key.now)
        (W.sink writer.old) result (W.sink writer.new) }
{
    match key.key_data.encrypted() {
        Some(ciphertext) => {
            encode_string(ciphertext, writer)?;
            writer.write(tag_bytes(&key.tag))
        }
        None => part_of(key).encode_prefixed(writer),
    }
}

/// The bytes of the tag; none without one.
fn tag_bytes(tag: &Option<[u8; 16]>) -> &[u8]
    ensures { result.now ≡ tag_bytes tag.now }
{
    match tag {
        Some(tag) => tag,
        None => &[],
    }
}

/// The private part of a key that is not encrypted, to be written.
fn part_of(key: &PrivateKey) -> Padded<'_>
    ensures checkint { result.0.checkint ≡ key.now.checkint }
    ensures pair { result.0.pair.now ≡ key.now.key_data }
    ensures comment { result.0.comment.now ≡ comment_of (outer_of key.now) }
{
    Padded(Part {
        checkint: key.checkint,
        pair: &key.key_data,
        comment: key.public_key.comment(),
    })
}

/// A checkint, a pair and a comment.
#[derive(Clone, Copy)]
struct Part<'a> {
    checkint: u32,
    pair: &'a KeypairData,
    comment: &'a str,
}

/// The checkint twice, the pair and the comment.
#[tactic(auto, using(sshkey_base::proofs::Writing::writing, sshkey_base::proofs::Writing::measuring, sshkey_base::proofs::Writing::measuring_leaves))]
impl Encode for Part<'_> {
    ghost normal = { part_parts };

    ghost max_len = { 2 ^ 63 + 2 ^ 33 };

    fn encoded_len(&self) -> encoding::Result<usize> {
        Ok(
            self.checkint.encoded_len()?
                + self.checkint.encoded_len()?
                + self.pair.encoded_len()?
                + string_len(self.comment.as_bytes())?,
        )
    }

    fn encode<W: Writer>(&self, writer: &mut W) -> encoding::Result<()> {
        self.checkint.encode(writer)?;
        self.checkint.encode(writer)?;
        self.pair.encode(writer)?;
        encode_string(self.comment.as_bytes(), writer)
    }
}

/// The same with its padding.
#[derive(Clone, Copy)]
struct Padded<'a>(Part<'a>);

/// The part and its padding.
#[tactic(auto, using(sshkey_base::proofs::Writing::measuring, sshkey_base::proofs::Writing::measuring_leaves, crate::proofs::KeyForms::padding_len))]
impl Encode for Padded<'_> {
    ghost normal = { λ p. padded (part_parts p.0) };

    ghost max_len = { 2 ^ 63 + 2 ^ 33 + 8 };

    fn encoded_len(&self) -> encoding::Result<usize> {
        let len = self.0.encoded_len()?;
        Ok(len + Cipher::None.padding_len(len))
    }

    fn encode<W: Writer>(&self, writer: &mut W) -> encoding::Result<()> {
        encode_padded(&self.0, writer)
    }
}
