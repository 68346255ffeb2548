//! The error of texts that are no names.

ghost use Rattle.std.specs.Prelude.{◌≡◌};
ghost use Rattle.sshkey_base.specs.declared.encoding.Error.TheVariants as encoding;
ghost use Rattle.sshkey_base.specs.declared.error.Error.TheVariants as wide;

use crate::encoding;
use crate::error::Error;

/// A text is not one of the names of a type. It becomes `Label`.
#[derive(Clone, Copy, Debug, PartialEq, Eq, thiserror::Error)]
#[error("label invalid")]
pub struct LabelError;

impl From<LabelError> for encoding::Error {
    ghost from_gives = { λ _ e. e ≡ encoding.Label };

    fn from(_error: LabelError) -> encoding::Error {
        encoding::Error::Label
    }
}

impl From<LabelError> for Error {
    ghost from_gives = { λ _ e. e ≡ wide.Encoding encoding.Label };

    fn from(_error: LabelError) -> Error {
        Error::Encoding(encoding::Error::Label)
    }
}
