//! A value after another.

ghost use Rattle.sshkey_model.specs.Terms.{◌then◌};

use crate::read_from::ReadFrom;
use sshkey_base::{Decode, Reader};
use std::alloc::Global;

/// Two values, the second directly after the first.
///
/// Where the second has bytes, the first has to end by itself, as an encrypted private key does
/// not.
///
/// Decoding reads the first and then the second, and fails with the first error. It allocates only
/// where one of the two does. Three values are a `Then` whose second is a `Then`.
#[derive(Drop)]
pub struct Then<A, B>(pub A, pub B);

#[tactic(auto, using(crate::proofs::Lawful::then_lawful, sshkey_base::proofs::Steps::steps, crate::proofs::Stopping::stopping), unfolding(sshkey_model::specs::Reading::after_at))]
impl<A: Decode + Drop, B: Decode<Error = A::Error>> Decode for Then<A, B> {
    type Error = A::Error;

    ghost Meaning = { A.Meaning × B.Meaning };

    ghost means = { λ x. (A.means x.0, B.means x.1) };

    ghost format = { A.format then B.format };

    fn lawful() {
        A::lawful();
        B::lawful();
    }

    #[inline(always)]
    fn decode<R: Reader>(alloc: Global, reader: &mut R) -> Result<Then<A, B>, A::Error> {
        A::lawful();
        let first = A::decode(alloc, reader)?;
        let second = B::decode(alloc, reader)?;
        Ok(Then(first, second))
    }
}

#[tactic(auto, using(crate::proofs::Lawful::then_lawful, sshkey_base::proofs::Steps::steps), unfolding(sshkey_model::specs::Reading::after_at))]
impl<R: Reader, A: ReadFrom<R> + Drop, B: ReadFrom<R, Error = A::Error>> ReadFrom<R>
    for Then<A, B> {
    type Error = A::Error;

    ghost Meaning = { A.Meaning × B.Meaning };

    ghost means = { λ x. (A.means x.0, B.means x.1) };

    ghost format = { A.format then B.format };

    fn lawful() {
        A::lawful();
        B::lawful();
    }

    #[inline(always)]
    fn read_from(reader: &mut R) -> Result<Then<A, B>, A::Error> {
        A::lawful();
        B::lawful();
        let first = A::read_from(reader)?;
        let second = B::read_from(reader)?;
        Ok(Then(first, second))
    }
}
