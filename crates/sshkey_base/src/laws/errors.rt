//! Laws of errors.

ghost use Rattle.sshkey_base.specs.Comparisons.{IsEqualityOf};

use crate::encoding;
use crate::error::Error;

/// Two errors are equal exactly if they are the same: by the kind of refusal, and by all that it
/// carries, as the algorithm, the field, the kind of the machine's fault or the number of bytes.
pub fn equal_errors()
    ensures { IsEqualityOf (λ error. error) ⟦<Error as PartialEq>⟧.eq }
{
    equal_encoding_errors();
}

/// Two errors of the encoding are equal exactly if they are the same, of trailing data with the
/// same number of bytes.
pub fn equal_encoding_errors()
    ensures { IsEqualityOf (λ error. error) ⟦<encoding::Error as PartialEq>⟧.eq }
{}
