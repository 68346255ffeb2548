//! What a revocation file says.

ghost use Rattle.std.specs.Prelude.{◌≡◌, ℕ, List, true, false};
ghost use Rattle.sshkey_krl.specs.Krls.{krl_format};
ghost use Rattle.sshkey_krl.specs.Revocation.{CertificateIdentity};
ghost use Rattle.sshkey_model.specs.Reading.{whole};
ghost use Rattle.sshkey_revoked_keys.specs.RevokedKeys as file;
ghost use Rattle.sshkey_revoked_keys.specs.declared.revoked_keys.RevokedKeys as declared;
ghost use Rattle.sshkey_revoked_keys.specs.RevokedKeys.{AsksText, ReadsKrl, ReadsRevokedKeys, begins_krl, has_key};

use crate::line::read_lines;
use sshkey_base::Result;
use sshkey_krl::{KrlRef, Revocations};
use std::alloc::Global;

/// The bytes that a key revocation list begins with.
const MAGIC: &[u8] = b"SSHKRL\n\0";

/// What a revocation file says, as sshd(8) reads it (sshd_config(5), RevokedKeys; ssh_config(5),
/// RevokedHostKeys; ssh-keygen(1), `-r` of `-Y verify`).
///
/// Pass on the `Result` of `from_bytes`: as a `Revocations` its `Err` revokes everything, as a file
/// does that sshd(8) does not read.
#[derive(Debug, Drop)]
pub enum RevokedKeys<'a> {
    /// A key revocation list.
    Krl(KrlRef<'a>),
    /// The normal forms of keys, or the bytes of those of a later kind. Each revokes the key, its
    /// certificates, and the certificates that it signed.
    Keys(Vec<Vec<u8>>),
}

impl<'a> RevokedKeys<'a> {
    /// Reads a file: a key revocation list if the bytes begin as one, and else a text.
    ///
    /// A list fails as `KrlRef::from_bytes` does, and does not allocate.
    ///
    /// Each line of a text is a key or a certificate: the name of its algorithm and its padded
    /// Base64, after which a carriage return may stand. Spaces or tabs stand between, and may stand
    /// in front; after them any bytes may follow. A certificate stands for the key in it. Lines with
    /// nothing but spaces and tabs, and comments, which begin with `#`, are passed over. A key of
    /// `ssh-mldsa44-ed25519`, which OpenSSH 10.6 reads, is one too: nobody is let in by it here, and
    /// its bytes are held as they stand.
    ///
    /// Unless memory runs out, a text fails exactly if one of its lines is none of these, with the
    /// error of the first such line: `Length` if the Base64 is missing, `CharacterEncoding` if it or
    /// the name is not UTF-8, the errors of `Certificate::from_bytes` under a certificate's name and
    /// else those of `KeyData::decode`, `Base64`, and `AlgorithmUnknown` if the name is not that of
    /// the key or the certificate.
    ///
    /// `Memory` means that an allocation failed, and of a text whose first line is none of these
    /// only where reading that line needs memory.
    pub fn from_bytes(alloc: Global, bytes: &'a [u8]) -> Result<RevokedKeys<'a>>
        ensures list { begins_krl bytes.now ≡ true →
            ReadsKrl (whole krl_format.read bytes.now) bytes.now result }
        ensures text { begins_krl bytes.now ≡ false → ReadsRevokedKeys bytes.now result }
        ensures asks { begins_krl bytes.now ≡ false → AsksText bytes.now result }
    {
        if bytes.starts_with(MAGIC) {
            return Ok(RevokedKeys::Krl(KrlRef::from_bytes(bytes)?));
        }
        Ok(RevokedKeys::Keys(read_lines(alloc, bytes)?))
    }
}

/// Whether the key is one of them.
fn has_key(keys: &[Vec<u8>], key: &[u8]) -> bool
    ensures { result ≡ has_key keys.now key.now }
{
    keys.iter().any(|it| it.as_slice() == key)
}

/// Revokes what the file does. A text revokes its keys, and the certificates whose key or signature
/// key is among them.
#[tactic(auto, using(crate::proofs::Wholeness::file_whole))]
impl Revocations for RevokedKeys<'_> {
    ghost revokes = { λ it key asked. file.revokes it key asked };

    ghost revokes_key = { λ it key. file.revokes_key it key };

    ghost revokes_none = { λ _. false };

    fn whole()
        ensures { (it : declared.RevokedKeys) (key : List ℕ) (asked : CertificateIdentity) →
            file.revokes_key it key ≡ true → file.revokes it key asked ≡ true }
    {}

    fn revokes_none(&self) -> bool {
        false
    }

    fn revokes_key(&self, key: &[u8]) -> bool {
        match self {
            RevokedKeys::Krl(list) => list.revokes_key(key),
            RevokedKeys::Keys(keys) => has_key(keys, key),
        }
    }

    fn revokes_certificate(
        &self,
        key: &[u8],
        signature_key: &[u8],
        serial: u64,
        key_id: &str,
    ) -> bool {
        match self {
            RevokedKeys::Krl(list) => {
                list.revokes_certificate(key, signature_key, serial, key_id)
            }
            RevokedKeys::Keys(keys) => has_key(keys, key) || has_key(keys, signature_key),
        }
    }
}
