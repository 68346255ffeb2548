//! Error types of reading calls.

ghost use Rattle.std.proofs.Common.{ap, ◌∙◌};
ghost use Rattle.std.specs.Prelude.{◌≡◌};
ghost use Rattle.sshkey_base.specs.Causes.{Cause, cause as wide_cause, encoding_cause, same_cause};
ghost use Rattle.sshkey_base.specs.declared.encoding.Error as narrow;

use crate::encoding;
use crate::error::Error;

/// An error type of a reading call: each of its errors has a cause.
pub trait DecodeError: From<encoding::Error> + Drop {
    /// Why it was rejected.
    ghost cause: { Self → Cause };

    /// An error of the encoding keeps its cause.
    ghost keeps_causes: { (x : narrow.Error) (e : Self) → Self.from_gives x e → cause e ≡ encoding_cause x };
}

impl DecodeError for encoding::Error {
    ghost cause = { encoding_cause };

    ghost keeps_causes = { λ x e given. ap encoding_cause given };
}

impl DecodeError for Error {
    ghost cause = { wide_cause };

    ghost keeps_causes = { λ x e given. ap wide_cause given ∙ same_cause x };
}
