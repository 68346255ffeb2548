//! The flags in the signatures of security keys (PROTOCOL.u2f).

ghost use Rattle.std.specs.Prelude.{◌≡◌};
ghost use Rattle.sshkey_keys.specs.Signatures.{signature_of};
ghost use Rattle.sshkey_userauth.specs.Judgements.{flags_of, lacking};

use super::Requirements;
use crate::refusal::UserauthRefusal;
use sshkey_keys::{Signature, has_trailer, split_trailer};

/// Somebody touched the security key (`SSH_SK_USER_PRESENCE_REQD`).
const USER_PRESENT: u8 = 0x01;

/// The security key verified its user (`SSH_SK_USER_VERIFICATION_REQD`).
const USER_VERIFIED: u8 = 0x04;

/// Accepts a signature if the flags of a security key in it are those that are required. The
/// signatures of other keys have no flags, and are accepted. Does not allocate.
///
/// Fails with the first of these: `Touch` if a touch is required, and the bit 0x01 is not set;
/// `Verification` if verification is required, and the bit 0x04 is not set. So ask it only about a
/// signature that was verified under the client's key: another one may say anything.
pub fn check_flags(signature: &Signature, requirements: Requirements) -> Result<(), UserauthRefusal>
    ensures { result ≡ lacking requirements (flags_of (signature_of signature.now)) }
{
    check_flag_byte(flags_of(signature), requirements)
}

/// The same of the flags in a signature that somebody else has seen, who tells them: `None` are
/// those of a signature that has none. Does not allocate.
pub fn check_flag_byte(flags: Option<u8>, requirements: Requirements) -> Result<(), UserauthRefusal>
    ensures { result ≡ lacking requirements flags }
{
    match flags {
        Some(flags) => {
            if requirements.touch_required && flags & USER_PRESENT == 0 {
                return Err(UserauthRefusal::Touch);
            }
            if requirements.verify_required && flags & USER_VERIFIED == 0 {
                return Err(UserauthRefusal::Verification);
            }
            Ok(())
        }
        None => Ok(()),
    }
}

/// The flags in the signature of a security key.
fn flags_of(signature: &Signature) -> Option<u8>
    ensures { result ≡ flags_of (signature_of signature.now) }
{
    if !has_trailer(signature.algorithm()) {
        return None;
    }
    let (_, trailer) = split_trailer(signature.as_bytes());
    match trailer {
        [flags, ..] => Some(*flags),
        [] => None,
    }
}
