//! Why a key could not be read, written or used.

ghost use Rattle.std.specs.IoError.{error_kind};
ghost use Rattle.std.specs.Prelude.{◌≡◌, ◌↔◌, IsTrue};
ghost use Rattle.sshkey_base.specs.Causes.{NoMemory, cause, widened, of_machine};
ghost use Rattle.sshkey_base.specs.declared.encoding.Error.TheVariants as encoding;
ghost use Rattle.sshkey_base.specs.declared.error.Error.TheVariants as wide;

use crate::algorithm::Algorithm;
use crate::certificate::Field;
use crate::encoding;
use std::alloc::{AllocError, AllocFailed};
use std::array::TryFromSliceError;
use std::io;
use std::str::Utf8Error;

/// Every error of the crates.
///
/// Where documentation says `Base64`, `CharacterEncoding`, `Label` or `Length`, it means `Encoding`
/// of that fault; and so it does by `TrailingData`, except where it says `Error::TrailingData`, a
/// variant of its own.
#[derive(Debug, Drop, PartialEq, Eq, thiserror::Error)]
pub enum Error {
    /// The algorithm, the curve or the hash is not the one that was stated, or is none: the first
    /// word of a line is not the name in its key, a point is of another curve, a fingerprint begins
    /// with the name of no hash, the tag of a point is 00 or 05, options follow a key derivation
    /// that has none, or one is to be made that derives nothing.
    #[error("unknown algorithm")]
    AlgorithmUnknown,
    /// Keys or signatures of the algorithm can't be used for what was asked.
    #[error("unsupported algorithm: {algorithm}")]
    AlgorithmUnsupported {
        /// The algorithm.
        algorithm: Algorithm,
    },
    /// A verifier said no; or a key or a signature is not one of its kind: a number in a signature
    /// is not positive, the curve of a security key is not P-256, the public bytes in an Ed25519
    /// pair differ, two checkints differ, a ciphertext is not whole blocks, or there is a key
    /// derivation though nothing is encrypted.
    #[error("cryptographic error")]
    Crypto,
    /// The private key is not encrypted. The crate ssh-key has this error; no call of these crates
    /// fails with it.
    #[error("private key is already decrypted")]
    Decrypted,
    /// A point of an elliptic curve is not encoded as one.
    #[error("ECDSA encoding error")]
    Ecdsa,
    /// A field of a certificate is invalid.
    #[error("certificate field invalid: {0}")]
    CertificateFieldInvalid(Field),
    /// A certificate is not valid.
    #[error("certificate validation failed")]
    CertificateValidation,
    /// The bytes break a rule of the wire encoding, or a text one of its own encoding: which one,
    /// the inner error says.
    #[error("{0}")]
    Encoding(encoding::Error),
    /// The private key is encrypted.
    #[error("private key is encrypted")]
    Encrypted,
    /// A value breaks a rule of its format: the magic bytes at the front are others, a number is
    /// not in its shortest form, is too large or stands for nothing, options of a certificate are
    /// not in ascending order of their names, padding is not 1, 2, 3 and so on, or a line is no
    /// entry.
    #[error("format encoding error")]
    FormatEncoding,
    /// An input or a file could not be read, or an output or a file not be written.
    #[error("I/O error")]
    Io(io::ErrorKind),
    /// Memory ran out.
    #[error("out of memory")]
    Memory,
    /// The namespace of an SSH signature is empty, or not the one that was asked for.
    #[error("namespace invalid")]
    Namespace,
    /// The public key is not the one that was asked for, or that of a private key's pair is not the
    /// one before the pair.
    #[error("public key is incorrect")]
    PublicKey,
    /// The version of an SSH signature is above 1.
    #[error("version unsupported: {number}")]
    Version {
        /// The version.
        number: u32,
    },
    /// A time is above 2^63 - 1 seconds since 1970.
    #[error("invalid time")]
    Time,
    /// Bytes follow an encrypted private key.
    #[error("unexpected trailing data at end of message ({remaining} bytes)")]
    TrailingData {
        /// How many bytes.
        remaining: usize,
    },
}

/// The result of a call of the crates.
pub type Result<T> = std::result::Result<T, Error>;

impl Error {
    /// Whether memory ran out.
    pub fn is_memory(&self) -> bool
        ensures value { IsTrue result ↔ (self.now ≡ wide.Memory) }
        ensures cause { IsTrue result ↔ (cause self.now ≡ NoMemory) }
    {
        matches!(self, Error::Memory)
    }
}

impl From<encoding::Error> for Error {
    ghost from_gives = { λ x e. e ≡ widened x };

    fn from(error: encoding::Error) -> Error {
        match error {
            encoding::Error::Memory => Error::Memory,
            other => Error::Encoding(other),
        }
    }
}

impl From<AllocError> for Error {
    ghost from_gives = { λ _ e. e ≡ wide.Memory };

    fn from(_error: AllocError) -> Error {
        Error::Memory
    }
}

impl<T: Drop> From<AllocFailed<T>> for Error {
    ghost from_gives = { λ _ e. e ≡ wide.Memory };

    fn from(_error: AllocFailed<T>) -> Error {
        Error::Memory
    }
}

/// A slice of another length.
impl From<TryFromSliceError> for Error {
    ghost from_gives = { λ _ e. e ≡ wide.Encoding encoding.Length };

    fn from(_error: TryFromSliceError) -> Error {
        Error::Encoding(encoding::Error::Length)
    }
}

impl From<Utf8Error> for Error {
    ghost from_gives = { λ _ e. e ≡ wide.Encoding encoding.CharacterEncoding };

    fn from(_error: Utf8Error) -> Error {
        Error::Encoding(encoding::Error::CharacterEncoding)
    }
}

impl From<io::Error> for Error {
    ghost from_gives = { λ x e. e ≡ of_machine (error_kind x) };

    fn from(error: io::Error) -> Error {
        match error.kind() {
            io::ErrorKind::OutOfMemory => Error::Memory,
            kind => Error::Io(kind),
        }
    }
}
