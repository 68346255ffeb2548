//! A value of the encoding among values of keys.

use crate::read_from::ReadFrom;
use sshkey_base::{Decode, Error, Reader, Result, encoding};
use std::alloc::Global;

/// A value whose decoding fails with the wider [`Error`] in place of [`encoding::Error`].
///
/// The two parts of a `Then` share one error type. Numbers, arrays and texts fail with an error of
/// the encoding, names and mpints with the wider one, so a `Wide` stands around the former.
#[derive(Drop)]
pub struct Wide<T>(pub T);

impl<T: Decode<Error = encoding::Error>> Decode for Wide<T> {
    type Error = Error;

    ghost Meaning = { T.Meaning };

    ghost means = { λ x. T.means x.0 };

    ghost format = { T.format };

    fn lawful() {
        T::lawful();
    }

    #[inline(always)]
    fn decode<R: Reader>(alloc: Global, reader: &mut R) -> Result<Wide<T>> {
        Ok(Wide(T::decode(alloc, reader)?))
    }
}

impl<R: Reader, T: ReadFrom<R, Error = encoding::Error>> ReadFrom<R> for Wide<T> {
    type Error = Error;

    ghost Meaning = { T.Meaning };

    ghost means = { λ x. T.means x.0 };

    ghost format = { T.format };

    fn lawful() {
        T::lawful();
    }

    #[inline(always)]
    fn read_from(reader: &mut R) -> Result<Wide<T>> {
        Ok(Wide(T::read_from(reader)?))
    }
}
