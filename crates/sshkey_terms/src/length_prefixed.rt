//! A value in a string.

ghost use Rattle.sshkey_model.specs.Terms.{boxed};

use sshkey_base::{Decode, Reader, decode_prefixed};
use std::alloc::Global;

/// A value in a string: a length of four bytes, and the bytes that it counts, which all spell the
/// value (RFC 4251, section 5).
///
/// Decoding fails with `Length` where the length passes what is left, without an allocation, and
/// with `TrailingData` and the number of bytes where some are left in the string after the value.
#[derive(Drop)]
pub struct LengthPrefixed<T>(pub T);

impl<T: Decode + Drop> Decode for LengthPrefixed<T> {
    type Error = T::Error;

    ghost Meaning = { T.Meaning };

    ghost means = { λ x. T.means x.0 };

    ghost format = { boxed T.format };

    fn lawful() {
        T::lawful();
    }

    #[inline(always)]
    fn decode<R: Reader>(alloc: Global, reader: &mut R) -> Result<LengthPrefixed<T>, T::Error> {
        Ok(LengthPrefixed(decode_prefixed::<T, R>(alloc, reader)?))
    }
}
