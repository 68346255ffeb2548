//! Whether an SSH signature counts, by a text of allowed signers or by a list of keys.

ghost use Rattle.std.specs.Prelude.{◌≡◌, ◌≢◌, Err};
ghost use Rattle.std.specs.Str.{IsUtf8};
ghost use Rattle.allowed_signers.specs.AllowedSigners.{NeedsMemory};
ghost use Rattle.sshkey_model.specs.Reading.{Fault, whole};
ghost use Rattle.sshkey_sshsig.specs.SshSignatureFormats.{ssh_signature_value_at};
ghost use Rattle.sshkey_calls.specs.Numbers.{fault_number};
ghost use Rattle.sshkey_calls.specs.Validations.{authorities_of};
ghost use Rattle.sshkey_entry_calls.specs.SshSignatures.{TellsSigner, TellsByKeys};

use sshkey_calls::laws::one_outcome;
use sshkey_calls::number::{TEXT, error_status};
use sshkey_calls::{GivenAnswer, Sha256Digest};
use sshkey_entry_calls::signers::signer_status;
use sshkey_entry_calls::sshsig::sshsig_status;
use sshkey_sshsig::SshSig;
use std::alloc::Global;
use std::str;

/// Whether the SSH signature that all the bytes spell counts as the identity's in that namespace,
/// by a text of allowed signers, at that time, in seconds since 1970 (`allowed_signers::verify`). 1
/// says that its question (`raf_sshsig_question`) was answered yes, and every other number that it
/// was not. `revoked` are revocation files (`RevocationFiles`).
///
/// Returns 0 if it does, 1 if memory ran out, 4 where the identity or the namespace is not UTF-8,
/// from 10 to 29 the fault of bytes that are no SSH signature, and else what is wrong first: 103
/// for an identity of no bytes, 55 where no line lets its key sign, 58 where a revocation file
/// cannot be read or there is none, which revokes each key, 56 for a key that is revoked, and 30
/// where it was not verified, is in another namespace or has reserved bytes. So 30, before anything
/// is verified, says that its key may sign. Memory is taken only for a part of the signature that
/// is whole.
#[unsafe(no_mangle)]
pub extern "C" fn raf_check_signer(
    alloc: Global,
    signers: &[u8],
    identity: &[u8],
    namespace: &[u8],
    signature: &[u8],
    unix_timestamp: u64,
    revoked: &[&[u8]],
    is_verified: u32,
) -> u32
    ensures verdict { IsUtf8 identity.now → IsUtf8 namespace.now
        → TellsSigner signers.now identity.now namespace.now unix_timestamp revoked.now is_verified
        signature.now result }
    ensures fault { IsUtf8 identity.now → IsUtf8 namespace.now
        → (fault : Fault) → whole ssh_signature_value_at signature.now ≡ Err fault → result ≢ 1
        → result ≡ fault_number fault }
    ensures text { (IsUtf8 identity.now → IsUtf8 namespace.now → ⊥) → result ≡ 4 }
    ensures memory { result ≡ 1 → NeedsMemory signature.now }
{
    let (Ok(identity), Ok(namespace)) = (str::from_utf8(identity), str::from_utf8(namespace)) else {
        return TEXT;
    };
    let said = GivenAnswer::of(is_verified);
    match SshSig::from_bytes(alloc, signature) {
        Ok(_) => signer_status(
            alloc,
            signers,
            identity,
            namespace,
            signature,
            unix_timestamp,
            revoked,
            &said,
        ),
        Err(error) => error_status(error),
    }
}

/// Whether the SSH signature that all the bytes spell counts in that namespace, where the keys with
/// these SHA-256 fingerprints may sign. 1 says that its question (`raf_sshsig_question`)
/// was answered yes, and every other number that it was not.
///
/// Returns 0 if it does, 1 if memory ran out, from 10 to 29 the fault of bytes that are no SSH
/// signature, and else what is wrong first: 55 for another key, and 30 where it was not verified,
/// is in another namespace, has reserved bytes or raises no question. So 30, before anything is
/// verified, says that its key may sign. Memory is taken only for a part of the signature that is
/// whole.
#[unsafe(no_mangle)]
pub extern "C" fn raf_check_sshsig(
    alloc: Global,
    signature: &[u8],
    namespace: &[u8],
    signers: &[Sha256Digest],
    is_verified: u32,
) -> u32
    ensures verdict { TellsByKeys (authorities_of signers.now) namespace.now is_verified
        signature.now result }
    ensures fault { (fault : Fault) → whole ssh_signature_value_at signature.now ≡ Err fault
        → result ≢ 1 → result ≡ fault_number fault }
    ensures memory { result ≡ 1 → NeedsMemory signature.now }
{
    one_outcome();
    match SshSig::from_bytes(alloc, signature) {
        Ok(read) => sshsig_status(
            alloc,
            &read,
            namespace,
            signers,
            GivenAnswer::of(is_verified),
        ),
        Err(error) => error_status(error),
    }
}
