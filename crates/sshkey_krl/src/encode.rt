//! What stands in a list, as it is written.

ghost use Rattle.std.specs.Prelude.{◌*◌, ◌+◌, ◌^◌, []};
ghost use Rattle.std.specs.Int.{w64};
ghost use Rattle.sshkey_keys.specs.Keys.{key_of};
ghost use Rattle.sshkey_model.specs.Keys.{normal_key};
ghost use Rattle.sshkey_model.specs.Parts.{◌&◌, box, each, number};
ghost use Rattle.sshkey_model.specs.Texts.{string};
ghost use Rattle.sshkey_krl.specs.Writing.{authority_of, Appends, authority_string, certificates_section, framed, header};

use sshkey_base::{
    Encode, Error, Result, Writer, both_len, encode_both, encode_each, encode_string, encoding,
    string_len,
};
use sshkey_keys::KeyData;

/// The eight bytes that a list begins with, as a number.
const MAGIC: u64 = 0x5353_484b_524c_0a00;

/// What stands before the sections of a list without flags.
#[derive(Drop)]
pub(crate) struct Header<'c> {
    pub number: u64,
    pub date: u64,
    pub comment: &'c str,
}

#[tactic(auto, using(sshkey_base::proofs::Writing::writing, sshkey_base::proofs::Writing::measuring, sshkey_base::proofs::Writing::measuring_leaves))]
impl Encode for Header<'_> {
    ghost normal = { λ h. header h.number h.date h.comment.now };

    ghost max_len = { 2 ^ 32 + 43 };

    fn encoded_len(&self) -> encoding::Result<usize> {
        Ok(40 + self.comment.encoded_len()?)
    }

    fn encode<W: Writer>(&self, writer: &mut W) -> encoding::Result<()> {
        encode_both(&MAGIC, &1u32, writer)?;
        encode_both(&self.number, &self.date, writer)?;
        0u64.encode(writer)?;
        encode_string(&[], writer)?;
        self.comment.encode(writer)
    }
}

/// A number of one byte, and what it calls for in a string.
#[derive(Drop)]
pub(crate) struct Framed<B> {
    pub number: u8,
    pub body: B,
}

#[tactic(auto, using(sshkey_base::proofs::Writing::writing, sshkey_base::proofs::Writing::measuring, sshkey_base::proofs::Writing::measuring_leaves))]
impl<B: Encode> Encode for Framed<B> {
    ghost normal = { λ f. framed f.number (B.normal f.body) };

    ghost max_len = { 2 ^ 32 + 4 };

    fn encoded_len(&self) -> encoding::Result<usize> {
        Ok(1 + self.body.encoded_len_prefixed()?)
    }

    fn encode<W: Writer>(&self, writer: &mut W) -> encoding::Result<()> {
        self.number.encode(writer)?;
        self.body.encode_prefixed(writer)
    }
}

/// A key in a string.
#[derive(Drop)]
pub(crate) struct KeyString<'k>(pub &'k KeyData);

impl Encode for KeyString<'_> {
    ghost normal = { λ k. box (normal_key (key_of k.0.now)) };

    ghost max_len = { 2 ^ 32 + 3 };

    fn encoded_len(&self) -> encoding::Result<usize> {
        self.0.encoded_len_prefixed()
    }

    fn encode<W: Writer>(&self, writer: &mut W) -> encoding::Result<()> {
        self.0.encode_prefixed(writer)
    }
}

/// The key of an authority in a string, which is empty if everybody is meant.
#[derive(Drop)]
struct AuthorityString<'k>(Option<&'k KeyData>);

impl Encode for AuthorityString<'_> {
    ghost normal = { λ a. authority_string (authority_of a.0) };

    ghost max_len = { 2 ^ 32 + 3 };

    fn encoded_len(&self) -> encoding::Result<usize> {
        match self.0 {
            Some(key) => key.encoded_len_prefixed(),
            None => string_len(&[]),
        }
    }

    fn encode<W: Writer>(&self, writer: &mut W) -> encoding::Result<()> {
        match self.0 {
            Some(key) => key.encode_prefixed(writer),
            None => encode_string(&[], writer),
        }
    }
}

/// A part about the certificates of an authority, or of everybody.
#[derive(Drop)]
pub(crate) struct Certificates<'k, B> {
    pub authority: Option<&'k KeyData>,
    pub part: Framed<B>,
}

#[tactic(auto, using(sshkey_base::proofs::Writing::writing, sshkey_base::proofs::Writing::measuring, sshkey_base::proofs::Writing::measuring_leaves))]
impl<B: Encode> Encode for Certificates<'_, B> {
    ghost normal = { λ c. authority_string (authority_of c.authority) & string []
        & framed c.part.number (B.normal c.part.body) };

    ghost max_len = { 2 ^ 33 + 11 };

    fn encoded_len(&self) -> encoding::Result<usize> {
        let authority = AuthorityString(self.authority).encoded_len()?;
        Ok(authority + 4 + self.part.encoded_len()?)
    }

    fn encode<W: Writer>(&self, writer: &mut W) -> encoding::Result<()> {
        AuthorityString(self.authority).encode(writer)?;
        encode_string(&[], writer)?;
        self.part.encode(writer)
    }
}

/// Serial numbers.
#[derive(Drop)]
pub(crate) struct Serials<'s>(pub &'s [u64]);

#[tactic(auto, using(crate::proofs::Writing::measured))]
impl Encode for Serials<'_> {
    ghost normal = { λ s. each (number w64) s.0.now };

    ghost max_len = { 2 ^ 63 };

    fn encoded_len(&self) -> encoding::Result<usize> {
        Ok(8 * self.0.len())
    }

    fn encode<W: Writer>(&self, writer: &mut W) -> encoding::Result<()> {
        encode_each(self.0, writer)
    }
}

/// A range of serial numbers, both ends included.
#[derive(Drop)]
pub(crate) struct Range {
    pub first: u64,
    pub last: u64,
}

impl Encode for Range {
    ghost normal = { λ r. number w64 r.first & number w64 r.last };

    ghost max_len = { 16 };

    fn encoded_len(&self) -> encoding::Result<usize> {
        both_len(&self.first, &self.last)
    }

    fn encode<W: Writer>(&self, writer: &mut W) -> encoding::Result<()> {
        encode_both(&self.first, &self.last, writer)
    }
}

/// Adds a section of one part about the certificates of the authority, as `append` does.
pub(crate) fn append_part<B: Encode + Drop>(
    bytes: &mut Vec<u8>,
    authority: Option<&KeyData>,
    number: u8,
    body: B,
) -> Result<()>
    ensures { Appends (certificates_section (authority_of authority.entry)
        (framed number (B.normal body))) bytes.old.items result bytes.new.items }
{
    append(
        bytes,
        &Framed {
            number: 1,
            body: Certificates {
                authority,
                part: Framed { number, body },
            },
        },
    )
}

/// Adds the bytes of the section. Fails with `Length` exactly if a string in it would exceed
/// 2^32 - 1 bytes, and otherwise only when out of memory, and then adds none.
pub(crate) fn append<S: Encode>(bytes: &mut Vec<u8>, section: &S) -> Result<()>
    ensures { Appends (S.normal section.now) bytes.old.items result bytes.new.items }
{
    section.encoded_len()?;
    let start = bytes.len();
    match section.encode(bytes) {
        Ok(()) => Ok(()),
        Err(_) => {
            bytes.truncate(start);
            Err(Error::Memory)
        }
    }
}
