//! What a caller gives, to say whether a signature is valid.

ghost use Rattle.std.specs.Prelude.{◌≡◌, Bool, IfOk, IfErr};
ghost use Rattle.sshkey_model.specs.Verification.{Question};
ghost use Rattle.sshkey_base.specs.Names.{algorithm_of};
ghost use Rattle.sshkey_keys.specs.Asked.{IsAsked};
ghost use Rattle.sshkey_keys.specs.Keys.{key_of};

use crate::key_data::KeyData;
use sshkey_base::Algorithm;
use std::alloc::AllocError;

/// The mathematics of signatures, which is the caller's. None of it is here.
///
/// These crates call `verify` with the parts of a question alone, with a signature that is
/// well-formed for the algorithm: `Dsa` with 40 bytes, r and s (RFC 4253, section 6.6); `Ecdsa`
/// with a key on the same curve, r and s as two positive mpints (RFC 5656, section 3.1.2);
/// `Ed25519` with 64 bytes (RFC 8709, section 6); and `Rsa` with a hash, by PKCS#1 v1.5, with any
/// number of bytes (RFC 8332, section 3). The numbers of DSA and RSA keys may be zero or negative,
/// and a point need not lie on its curve, and may be compressed, which OpenSSH does not read:
/// return `Ok(false)` for such a key.
pub trait RawVerifier {
    /// Which signatures it accepts, a function of its value and the question.
    ghost accepts: { Self → Question → Bool };

    /// The questions over which it may run out of memory: all, unless an implementation says less.
    ghost runs_out: { Self → Question → Type 0 } = { λ _ _. Unit {0} };

    /// Returns whether these bytes are a signature of the message under the key by the algorithm.
    ///
    /// Whoever sent a signature or a certificate chose all four, of any size, before anybody is
    /// trusted: refuse first what costs too much. OpenSSH reads RSA keys of at most 16,384 bits.
    ///
    /// Fails with `AllocError` if it runs out of memory; nothing is said of the signature then.
    fn verify(
        &self,
        algorithm: &Algorithm,
        key: &KeyData,
        message: &[u8],
        signature: &[u8],
    ) -> std::result::Result<bool, AllocError>
        requires { IsAsked (record {
          algorithm = algorithm_of algorithm.now;
          key = key_of key.now;
          message = message.now;
          blob = signature.now;
        }) }
        ensures answer { IfOk result (λ yes. yes ≡ accepts self.now (record {
          algorithm = algorithm_of algorithm.now;
          key = key_of key.now;
          message = message.now;
          blob = signature.now;
        })) }
        ensures memory { IfErr result (λ _. runs_out self.now (record {
          algorithm = algorithm_of algorithm.now;
          key = key_of key.now;
          message = message.now;
          blob = signature.now;
        })) };
}
