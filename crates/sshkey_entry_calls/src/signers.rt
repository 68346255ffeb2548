//! Whether an SSH signature counts, by a text of allowed signers.

ghost use Rattle.std.specs.Prelude.{◌≡◌, ◌≢◌, [], Err, List, Result};
ghost use Rattle.sshkey_base.specs.declared.error.Error.{Error};
ghost use Rattle.sshkey_revoked_keys.specs.declared.revoked_keys.RevokedKeys.{RevokedKeys};
ghost use Rattle.sshkey_entry_calls.specs.Revocations.{AreReadOf, one_revokes_key, revoked_status};
ghost use Rattle.sshkey_entry_calls.specs.SshSignatures.{IsJudged, verdict_status};

use crate::revocation_files::RevocationFiles;
use allowed_signers::{SignerRefusal, verify};
use sshkey_calls::GivenAnswer;
use sshkey_calls::number::{DONE, MEMORY, NOT_SIGNED, SIGNER_NOT_ALLOWED};
use std::alloc::Global;

/// The identity has no bytes.
const NO_IDENTITY: u32 = 103;

/// The number of whether a signature counts as the identity's (`allowed_signers::verify`), by
/// revocation files and by what was verified.
pub fn signer_status(
    alloc: Global,
    signers: &[u8],
    identity: &str,
    namespace: &str,
    signature: &[u8],
    unix_timestamp: u64,
    revoked: &[&[u8]],
    said: &GivenAnswer,
) -> u32
    ensures { result ≢ 1 → (reads : List (Result RevokedKeys Error)) × AreReadOf revoked.now reads
        × IsJudged (λ _. said.now.is_yes) (one_revokes_key reads) (revoked_status reads)
        signers.now identity.now namespace.now [] unix_timestamp signature.now result }
{
    let Ok(files) = RevocationFiles::read(alloc, revoked) else {
        return MEMORY;
    };
    let verdict = verify(
        alloc,
        signers,
        identity,
        namespace,
        &[],
        signature,
        unix_timestamp,
        &files,
        said,
    );
    verdict_status(verdict, files.revoked_status())
}

/// The number of a verdict, where that one is told of a key that is revoked.
fn verdict_status(verdict: std::result::Result<(), SignerRefusal>, of_revoked: u32) -> u32
    ensures { result ≡ verdict_status of_revoked verdict }
{
    match verdict {
        Ok(()) => DONE,
        Err(SignerRefusal::NoIdentity) => NO_IDENTITY,
        Err(SignerRefusal::NotAllowed) => SIGNER_NOT_ALLOWED,
        Err(SignerRefusal::Revoked) => of_revoked,
        Err(SignerRefusal::NoSignature | SignerRefusal::NotVerified) => NOT_SIGNED,
        Err(SignerRefusal::Memory) => MEMORY,
    }
}
