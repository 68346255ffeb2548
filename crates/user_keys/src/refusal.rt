//! Why a login is refused.

ghost use Rattle.std.specs.Prelude.{◌≡◌};
ghost use Rattle.user_keys.specs.CertificateLogins.{IsRefusalOf};
ghost use Rattle.user_keys.specs.declared.refusal.UserRefusal.TheVariants.{Memory};

use std::alloc::AllocError;

/// Why a login is refused.
#[derive(Debug, Drop)]
pub enum UserRefusal {
    /// No line is for the key; or, of a certificate, no line `cert-authority` for the key that
    /// signed it, or none that names one of its principals. A line whose options sshd(8) rejects is
    /// for nobody.
    NotListed,
    /// Lines are for the key, and each refuses it; or the line that decides refuses a principal.
    NotAllowed {
        /// The number of the first of them, from 1. Empty lines and comments are counted.
        line: usize,
        /// Why it refuses.
        reason: Reason,
    },
    /// Whether a line lets the key in cannot be told here, and none before it does. sshd(8) may let
    /// it in by that line, and bind the login to what that line says: so let no other line count,
    /// nor another file.
    Unclear {
        /// The number of that line, from 1.
        line: usize,
    },
    /// sshd(8) accepts no such key, by its kind or its size
    /// (`openssh_limits::openssh_accepts_key`); or, of a certificate, no such key as signed it.
    UnacceptedKey,
    /// The key is revoked.
    Revoked,
    /// It is no certificate, or a line allows it, and it is refused for that
    /// (`login_policy::log_in`). It is never `login_policy::LoginRefusal::Memory`.
    Certificate(login_policy::LoginRefusal),
    /// Memory ran out.
    Memory,
}

/// Why a line that is for a key refuses it.
#[derive(Clone, Copy, Debug, PartialEq, Eq)]
pub enum Reason {
    /// Its time, `expiry-time`, is over.
    Expired,
    /// An option has no place there: `principals`, where the line's key is no authority's, or in a
    /// file of principals, as `cert-authority`.
    MisplacedOption,
    /// It is for other places (`from`).
    Elsewhere,
    /// The certificate has a command (`force-command`), and the line another.
    Command,
    /// The certificate lists none of the names that count: the user's, or those of the line's
    /// `principals`.
    Principals,
}

impl From<AllocError> for UserRefusal {
    ghost from_gives = { λ _ r. r ≡ Memory };

    fn from(_error: AllocError) -> UserRefusal {
        UserRefusal::Memory
    }
}

impl From<login_policy::LoginRefusal> for UserRefusal {
    ghost from_gives = { IsRefusalOf };

    fn from(refusal: login_policy::LoginRefusal) -> UserRefusal {
        if matches!(refusal, login_policy::LoginRefusal::Memory) {
            return UserRefusal::Memory;
        }
        UserRefusal::Certificate(refusal)
    }
}
