//! Why a login is refused.

ghost use Rattle.std.specs.Prelude.{◌≡◌};
ghost use Rattle.publickey_login.specs.declared.refusal.PublickeyRefusal.TheVariants.{Memory};

use crate::grant::Source;
use sshkey_base::Error;
use sshkey_userauth::UserauthRefusal;
use std::alloc::AllocError;

/// Why a login is refused.
#[derive(Debug, Drop)]
pub enum PublickeyRefusal {
    /// The bytes that are offered are no key and no certificate, for that fault.
    NoKey(Error),
    /// sshd(8) accepts no such key, by its kind or its size
    /// (`openssh_limits::openssh_accepts_key`); or, of a certificate, no such key as signed it.
    UnacceptedKey,
    /// The key is revoked.
    Revoked,
    /// Nothing that the server trusts lets the key or the certificate in: no text has a line for it,
    /// and of a certificate no authority that is trusted lists the user.
    NotListed,
    /// Nothing lets in, and a text that was asked has a line for it, which refuses.
    NotAllowed {
        /// The first such text.
        source: Source,
        /// The number of its first line that is for it, from 1.
        line: usize,
        /// Why that line refuses.
        reason: user_keys::Reason,
    },
    /// Whether a line lets in cannot be told here, and nothing before it does. sshd(8) may let in by
    /// that line, and bind the login to what it says: so nothing after it counts.
    Unclear {
        /// The text.
        source: Source,
        /// The number of the line, from 1.
        line: usize,
    },
    /// A text could not be read, and nothing before it lets in.
    Unreadable {
        /// The text.
        source: Source,
    },
    /// The certificate is let in by what the server trusts, and refused for that. It is never
    /// `login_policy::LoginRefusal::Memory`.
    Certificate(login_policy::LoginRefusal),
    /// The name of the algorithm is none of the key's, or of the certificate's as which it is
    /// offered; or there is none, and the signature is to be verified.
    Algorithm,
    /// The client's signature is refused for that, before a verifier is asked.
    Signature(UserauthRefusal),
    /// The bytes of the client's signature are none, for that fault.
    NoSignature(Error),
    /// A part of the request is longer than a string can be.
    TooLong,
    /// A touch or a verified user is required of a security key, and nobody tells its flags.
    NoFlags,
    /// All is right but the client's signature: it is none of the key's for this request.
    NotSigned,
    /// Memory ran out.
    Memory,
}

impl From<AllocError> for PublickeyRefusal {
    ghost from_gives = { λ _ r. r ≡ Memory };

    fn from(_error: AllocError) -> PublickeyRefusal {
        PublickeyRefusal::Memory
    }
}
