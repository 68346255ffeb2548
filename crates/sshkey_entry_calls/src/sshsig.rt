//! Whether an SSH signature is by one of some keys.

ghost use Rattle.std.specs.Prelude.{◌≡◌, ◌≢◌, ◌↔◌, [], IsTrue};
ghost use Rattle.allowed_signers.specs.AllowedSigners.{HasSigned};
ghost use Rattle.sshkey_sshsig.specs.SshSignatures.{ssh_signature_of};
ghost use Rattle.sshkey_calls.specs.Validations.{authorities_of};
ghost use Rattle.sshkey_entry_calls.specs.SshSignatures.{IsJudgedByKeys};

use sshkey_base::HashAlg;
use sshkey_calls::number::{DONE, MEMORY, NOT_SIGNED, SIGNER_NOT_ALLOWED};
use sshkey_calls::{GivenAnswer, Sha256Digest, contains_fingerprint};
use sshkey_sshsig::SshSig;
use std::alloc::Global;

/// The number of whether a signature counts in the namespace as one by the keys with these
/// fingerprints, by what was verified.
pub fn sshsig_status(
    alloc: Global,
    read: &SshSig,
    namespace: &[u8],
    signers: &[Sha256Digest],
    said: GivenAnswer,
) -> u32
    ensures { result ≢ 1 → IsJudgedByKeys (λ _. said.is_yes) (authorities_of signers.now)
        namespace.now [] (ssh_signature_of read.now) result }
{
    let Ok(signer) = read.public_key().fingerprint(alloc, HashAlg::Sha256) else {
        return MEMORY;
    };
    if !contains_fingerprint(signers, signer.as_bytes()) {
        return SIGNER_NOT_ALLOWED;
    }
    if !has_signed(read, namespace, said) {
        return NOT_SIGNED;
    }
    DONE
}

/// Whether the signature is in the namespace, with nothing reserved, raises a question, and the
/// verification said yes to it.
///
/// Whether it raises one does not depend on the message, so none is digested.
fn has_signed(read: &SshSig, namespace: &[u8], said: GivenAnswer) -> bool
    ensures { IsTrue result
        ↔ HasSigned (λ _. said.is_yes) namespace.now [] (ssh_signature_of read.now) }
{
    if !said.is_yes {
        return false;
    }
    if !is_in(read, namespace) {
        return false;
    }
    if !read.reserved().is_empty() {
        return false;
    }
    read.public_key().question(&[], read.signature()).is_some()
}

/// Whether the signature is in the namespace.
fn is_in(read: &SshSig, namespace: &[u8]) -> bool
    ensures { IsTrue result ↔ ((ssh_signature_of read.now).namespace ≡ namespace.now) }
{
    read.namespace().as_bytes() == namespace
}
