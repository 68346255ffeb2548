//! Why a client's signature is refused.

use sshkey_base::Error;

/// Why a client's signature is refused, before a verifier is asked.
#[derive(Debug, Drop)]
pub enum UserauthRefusal {
    /// The signed bytes are not those of the request.
    SignedBytes,
    /// The service is not `ssh-connection`.
    Service,
    /// The request's name is not that of the signature's algorithm, in keys or in certificates; or
    /// the algorithm signs by SHA-1, or has a private-use name.
    Algorithm,
    /// A touch is required, and the flags of the security key tell of none.
    Touch,
    /// The verification of the user is required, and the flags of the security key tell of none.
    Verification,
    /// The request holds no key, or no certificate, as its name says, for that fault.
    Key(Error),
    /// Memory ran out.
    Memory,
}
