//! What several revocation files say.

ghost use Rattle.std.specs.List.{AllZip};
ghost use Rattle.std.specs.Prelude.{◌≡◌, ◌<◌, ℕ, IfErr, IfOk, List, false, length, true};
ghost use Rattle.sshkey_base.specs.declared.error.Error.TheVariants as error;
ghost use Rattle.sshkey_krl.specs.Revocation.{CertificateIdentity, certificate_identity};
ghost use Rattle.sshkey_entry_calls.specs.Revocations as files;
ghost use Rattle.sshkey_entry_calls.specs.declared.revocation_files.RevocationFiles as declared;
ghost use Rattle.sshkey_entry_calls.specs.Revocations.{AreReadOf, IsReadOf, NeedsFile, NeedsFiles, are_read, is_nothing, is_only_nothing, reads_of, revoked_status};

use sshkey_base::{Error, Result, encoding};
use sshkey_calls::number::{REVOKED, UNREADABLE_REVOCATIONS};
use sshkey_krl::Revocations;
use sshkey_revoked_keys::RevokedKeys;
use std::alloc::Global;

/// The list of nothing (PROTOCOL.krl), by which a caller says that it asks about no revocation.
const NOTHING: &[u8] =
    b"SSHKRL\n\0\0\0\0\x01\0\0\0\0\0\0\0\0\0\0\0\0\0\0\0\0\0\0\0\0\0\0\0\0\0\0\0\0\0\0\0\0";

/// What several revocation files say, as sshd(8) reads them (sshd_config(5), RevokedKeys, which may
/// name several since OpenSSH 10.3): any of them revokes. A file that cannot be read revokes
/// everything, and so does no file at all.
#[derive(Debug, Drop)]
pub struct RevocationFiles<'a> {
    first: Result<RevokedKeys<'a>>,
    more: Vec<Result<RevokedKeys<'a>>>,
}

impl<'a> RevocationFiles<'a> {
    /// Reads the files, each by `RevokedKeys::from_bytes`.
    ///
    /// Fails only when out of memory. One file takes what reading it takes, which is none for a
    /// list, and several take more.
    pub fn read(alloc: Global, files: &[&'a [u8]]) -> Result<RevocationFiles<'a>>
        ensures read { IfOk result (λ it. AreReadOf files.now (reads_of it)) }
        ensures memory { IfErr result (λ e. e ≡ error.Memory) }
        ensures asks { IfErr result (λ _. NeedsFiles files.now) }
    {
        let [first, rest @ ..] = files else {
            // without a file: as one that cannot be read
            let first = Err(Error::Encoding(encoding::Error::Length));
            return Ok(RevocationFiles {
                first,
                more: Vec::new(alloc),
            });
        };
        let first = read_file(alloc, first)?;
        let more = read_more(alloc, rest)?;
        Ok(RevocationFiles { first, more })
    }

    /// Returns whether there is a file, and each could be read.
    pub fn are_read(&self) -> bool
        ensures { result ≡ are_read (reads_of self.now) }
    {
        self.first.is_ok() && are_all_read(&self.more)
    }

    /// Returns the number of what they revoke: 58 if one could not be read, or there is none, and
    /// else 56.
    pub fn revoked_status(&self) -> u32
        ensures { result ≡ revoked_status (reads_of self.now) }
    {
        if self.are_read() {
            return REVOKED;
        }
        UNREADABLE_REVOCATIONS
    }
}

/// What reading a file gives. Fails only when out of memory.
fn read_file(alloc: Global, file: &[u8]) -> Result<Result<RevokedKeys<'_>>>
    ensures read { IfOk result (λ read. IsReadOf file.now read) }
    ensures memory { IfErr result (λ e. e ≡ error.Memory) }
    ensures asks { IfErr result (λ _. NeedsFile file.now) }
{
    match RevokedKeys::from_bytes(alloc, file) {
        Ok(read) => Ok(Ok(read)),
        Err(error) => {
            if error.is_memory() {
                return Err(Error::Memory);
            }
            Ok(Err(error))
        }
    }
}

/// What reading each of them gives. Fails only when out of memory.
fn read_more<'a>(alloc: Global, files: &[&'a [u8]]) -> Result<Vec<Result<RevokedKeys<'a>>>>
    ensures read { IfOk result
        (λ reads. AllZip (λ file read. IsReadOf file.now read) files.now reads.items) }
    ensures memory { IfErr result (λ e. e ≡ error.Memory) }
    ensures asks { IfErr result (λ _. 0 < length files.now) }
{
    let mut reads = Vec::new(alloc);
    for file in files {
        reads.push(read_file(alloc, file)?)?;
    }
    Ok(reads)
}

/// Whether it is the list of nothing: then no digest of a key has to be made.
fn is_nothing(read: &Result<RevokedKeys<'_>>) -> bool
    ensures { result ≡ is_nothing read.now }
{
    match read {
        Ok(RevokedKeys::Krl(list)) => list.as_bytes() == NOTHING,
        Ok(RevokedKeys::Keys(_)) | Err(_) => false,
    }
}

/// Whether each could be read.
fn are_all_read(reads: &[Result<RevokedKeys<'_>>]) -> bool
    ensures { result ≡ are_read reads.now }
{
    reads.iter().all(|read| read.is_ok())
}

/// Whether one of them revokes the key.
fn one_revokes_key(reads: &[Result<RevokedKeys<'_>>], key: &[u8]) -> bool
    ensures { result ≡ files.one_revokes_key reads.now key.now }
{
    reads.iter().any(|read| read.revokes_key(key))
}

/// Whether one of them revokes a certificate of the key.
fn one_revokes(
    reads: &[Result<RevokedKeys<'_>>],
    key: &[u8],
    signature_key: &[u8],
    serial: u64,
    key_id: &str,
) -> bool
    ensures { result ≡ files.one_revokes reads.now key.now
        (certificate_identity signature_key.now serial key_id.now) }
{
    reads.iter().any(|read| read.revokes_certificate(key, signature_key, serial, key_id))
}

/// Revokes what one of them does.
impl Revocations for RevocationFiles<'_> {
    ghost revokes = { λ it key asked. files.one_revokes (reads_of it) key asked };

    ghost revokes_key = { λ it key. files.one_revokes_key (reads_of it) key };

    ghost revokes_none = { λ it. is_only_nothing (reads_of it) };

    fn whole()
        ensures { (it : declared.RevocationFiles) (key : List ℕ) (asked : CertificateIdentity) →
            files.one_revokes_key (reads_of it) key ≡ true →
            files.one_revokes (reads_of it) key asked ≡ true }
    {}

    fn revokes_none(&self) -> bool {
        self.more.is_empty() && is_nothing(&self.first)
    }

    fn revokes_key(&self, key: &[u8]) -> bool {
        self.first.revokes_key(key) || one_revokes_key(&self.more, key)
    }

    fn revokes_certificate(
        &self,
        key: &[u8],
        signature_key: &[u8],
        serial: u64,
        key_id: &str,
    ) -> bool {
        self.first
            .revokes_certificate(key, signature_key, serial, key_id)
            || one_revokes(&self.more, key, signature_key, serial, key_id)
    }
}
