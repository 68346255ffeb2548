//! How a certificate is made.

ghost use Rattle.std.specs.Prelude.{◌≡◌, ◌≢◌};
ghost use Rattle.sshkey_base.specs.Judgements.{SpellsSome};
ghost use Rattle.sshkey_model.specs.Keys.{SpellsKey};
ghost use Rattle.sshkey_calls.specs.Drafts.{IsToBeSigned, TellsWrong, WritesSigned, draft_fault};
ghost use Rattle.sshkey_calls.specs.Writing.{WritesContent};

use sshkey_calls::CertificateDraft;
use sshkey_calls::draft::write_fields;
use sshkey_calls::draft_fields::fields_of;
use sshkey_calls::signed::{join, write_certificate};
use std::alloc::Global;

/// Writes the bytes that are to be signed of the certificate that the draft tells, which the string
/// of the signature makes a certificate of: `raf_certificate_make`.
///
/// Returns 0, 2 where the room is shorter, 1 if memory ran out, and else what is wrong, numbers
/// first: 15 for a type that is neither 1 nor 2, 19 for a time above 2^63 - 1, 46 for a window that
/// is empty, 45 where no principals are listed and `all_principals` is not 1, or some are and it
/// is. Then, in this order: from 10 to 29 the fault of the key, 12 for one under a private-use
/// name, the fault of the authority's, 11 for a key id that is not UTF-8, and the fault of the
/// principals, of the critical options and of the extensions, or 13 where they do not fit a string;
/// last 13 for a nonce or a key id that does not. Memory is taken only where the numbers are right
/// and a key is spelled that is to be certified. With any number but 0 the room stays as it was,
/// and so does the length, but with 2.
#[unsafe(no_mangle)]
pub extern "C" fn raf_certificate_to_be_signed(
    alloc: Global,
    draft: &CertificateDraft<'_>,
    room: &mut [u8],
    length: &mut usize,
) -> u32
    ensures written { WritesContent (IsToBeSigned draft.now)
        result length.old length.new room.old room.new }
    ensures numbers { draft_fault draft.now ≢ 0 → result ≡ draft_fault draft.now }
    ensures fault { TellsWrong draft.now result }
    ensures memory { result ≡ 1 → SpellsSome SpellsKey draft.now.key.now }
{
    match fields_of(alloc, draft) {
        Ok(fields) => write_fields(alloc, &fields, room, length),
        Err(number) => number,
    }
}

/// Writes the certificate that the signature makes of the bytes that were signed: these, and the
/// signature's blob in a string. Whether it is a signature of them `raf_certificate_question` asks.
///
/// Returns 0, 2 where the room is shorter, 1 if memory ran out, and else from 10 to 29 the fault of
/// bytes that are no certificate then, or 13 for a signature that does not fit a string. Memory is
/// taken only where it fits one.
#[unsafe(no_mangle)]
pub extern "C" fn raf_certificate_make(
    alloc: Global,
    to_be_signed: &[u8],
    signature: &[u8],
    room: &mut [u8],
    length: &mut usize,
) -> u32
    ensures { WritesSigned to_be_signed.now signature.now
        result length.old length.new room.old room.new }
{
    match join(alloc, to_be_signed, signature) {
        Ok(certificate) => write_certificate(&certificate, room, length),
        Err(number) => number,
    }
}
