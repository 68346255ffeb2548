//! Faults of the wire encoding (RFC 4251, section 5).

ghost use Rattle.std.specs.Prelude.{◌≡◌};
ghost use Rattle.sshkey_base.specs.declared.encoding.Error.TheVariants as encoding;

use std::alloc::{AllocError, AllocFailed};
use std::array::TryFromSliceError;
use std::str::Utf8Error;

/// Why bytes could not be read or written.
#[derive(Clone, Copy, Debug, PartialEq, Eq, thiserror::Error)]
pub enum Error {
    /// A text is not canonical Base64.
    #[error("Base64 encoding error")]
    Base64,
    /// A text is not UTF-8, or has a character that is not allowed where it stands: in the name
    /// that begins a line, or in options.
    #[error("character encoding invalid")]
    CharacterEncoding,
    /// A name is not one of those allowed.
    #[error("label invalid")]
    Label,
    /// A stated length exceeds what is left, a value has not the size of its kind, a word of a line
    /// is missing, or a string would exceed 2^32 - 1 bytes or the room to write into.
    #[error("length invalid")]
    Length,
    /// Bytes are left after a value.
    #[error("unexpected trailing data at end of message ({remaining} bytes)")]
    TrailingData {
        /// How many bytes are left.
        remaining: usize,
    },
    /// Memory ran out.
    #[error("out of memory")]
    Memory,
}

/// The result of a call of the encoding.
pub type Result<T> = std::result::Result<T, Error>;

impl From<AllocError> for Error {
    ghost from_gives = { λ _ e. e ≡ encoding.Memory };

    fn from(_error: AllocError) -> Error {
        Error::Memory
    }
}

impl<T: Drop> From<AllocFailed<T>> for Error {
    ghost from_gives = { λ _ e. e ≡ encoding.Memory };

    fn from(_error: AllocFailed<T>) -> Error {
        Error::Memory
    }
}

/// A slice of another length.
impl From<TryFromSliceError> for Error {
    ghost from_gives = { λ _ e. e ≡ encoding.Length };

    fn from(_error: TryFromSliceError) -> Error {
        Error::Length
    }
}

impl From<Utf8Error> for Error {
    ghost from_gives = { λ _ e. e ≡ encoding.CharacterEncoding };

    fn from(_error: Utf8Error) -> Error {
        Error::CharacterEncoding
    }
}
