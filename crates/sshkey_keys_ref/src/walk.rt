//! What stands after a value at the front of a slice.

ghost use Rattle.sshkey_keys_ref.specs.Taking.{Skips};

use sshkey_terms::ReadFrom;

/// What stands after a value.
pub(crate) fn after<'a, T: ReadFrom<&'a [u8]> + Drop>(bytes: &'a [u8]) -> Result<&'a [u8], T::Error>
    ensures { Skips T.Error.cause T.format.read bytes.now result }
{
    let mut rest = bytes;
    T::read_from(&mut rest)?;
    Ok(rest)
}
