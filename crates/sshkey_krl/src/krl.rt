//! Key revocation lists that own their bytes, and grow.

ghost use Rattle.std.specs.Prelude.{◌≡◌, true};
ghost use Rattle.sshkey_model.specs.Reading.{whole};
ghost use Rattle.sshkey_terms.specs.Slices.{is_taken};
ghost use Rattle.sshkey_krl.specs.Krls.{krl_format};

use crate::authority::is_read_authority;
use crate::encode::{Framed, Header, KeyString, Range, Serials, append, append_part};
use crate::krl_ref::KrlRef;
use crate::revocations::Revocations;
use crate::serials::check_range;
use sshkey_base::{Encode, Error, Result, encode_vec};
use sshkey_keys::KeyData;
use std::alloc::Global;

/// A key revocation list that owns its bytes (PROTOCOL.krl). What is to be revoked is added to it,
/// each time in a section of its own. If a call fails, the list is as it was.
///
/// An authority is the key that signed the certificates, or `None` for those of everybody. Calls
/// fail with `FormatEncoding` for one that OpenSSH does not read (`KrlRef::from_bytes`).
#[derive(Debug, Drop)]
pub struct Krl {
    bytes: Vec<u8>,
    pub ghost form: { is_taken (whole krl_format.read bytes.items) ≡ true },
}

impl Krl {
    ghost use Rattle.std.specs.Prelude.{◌⊎◌, ◌<◌, ◌≤◌, [], ◌∷◌, Err, false};
    ghost use Rattle.sshkey_base.specs.Causes.{cause};
    ghost use Rattle.sshkey_base.specs.declared.error.Error.TheVariants.{FormatEncoding};
    ghost use Rattle.sshkey_keys.specs.Keys.{key_of};
    ghost use Rattle.sshkey_model.specs.Keys.{normal_key};
    ghost use Rattle.sshkey_model.specs.Parts.{flat};
    ghost use Rattle.sshkey_terms.specs.Slices.{AcceptsAll, Keeps};
    ghost use Rattle.sshkey_krl.specs.KrlRef.{krl_bytes as ref_bytes};
    ghost use Rattle.sshkey_krl.specs.Krls.{SpellsKrl};
    ghost use Rattle.sshkey_krl.specs.Writing.{Adds, AddsPart, BeginsList, Rejects, authority_of, krl_bytes, krl_of, IsWellFormedAuthority, has_zero, is_read_authority, key_id_part, key_section, range_part, serials_part, sha1_section, sha256_section};
    ghost use Rattle.sshkey_krl.specs.Revocation.{KeyIds, Keys, Numbers, Sha1s, Sha256s, Listed};
    ghost use Rattle.sshkey_krl.specs.Revocation as serials;

    /// A list with that number, date and comment that revokes nothing. The date is in seconds since
    /// 1970.
    ///
    /// Fails with `FormatEncoding` for a zero byte in the comment, with `Length` for a comment of
    /// more than 2^32 - 1 bytes, and otherwise only when out of memory.
    pub fn new(alloc: Global, number: u64, date: u64, comment: &str) -> Result<Krl>
        ensures begins { has_zero comment.now ≡ false → BeginsList number date comment.now result }
        ensures zero { has_zero comment.now ≡ true → result ≡ Err FormatEncoding }
    {
        if comment.as_bytes().contains(&0) {
            return Err(Error::FormatEncoding);
        }
        let bytes = encode_vec(
            alloc,
            &Header {
                number,
                date,
                comment,
            },
        )?;
        Ok(Krl { bytes })
    }

    /// The list that all the bytes together spell. Fails as `KrlRef::from_bytes` does. Does not
    /// allocate.
    pub fn from_vec(bytes: Vec<u8>) -> Result<Krl>
        ensures keeps { Keeps krl_bytes cause (whole krl_format.read bytes.items) bytes.items
            result }
        ensures accepts { AcceptsAll krl_of SpellsKrl bytes.items result }
    {
        KrlRef::from_bytes(bytes.as_slice())?;
        Ok(Krl { bytes })
    }

    /// The bytes of the list.
    pub fn as_bytes(&self) -> &[u8]
        ensures bytes { result.now ≡ krl_bytes self.now }
        ensures spelled { SpellsKrl (krl_of self.now) result.now }
    {
        self.bytes.as_slice()
    }

    /// The list as a slice of its bytes. Does not allocate.
    pub fn as_ref(&self) -> KrlRef<'_>
        ensures { ref_bytes result ≡ krl_bytes self.now }
    {
        KrlRef { bytes: &self.bytes }
    }

    /// Revokes the key, and each certificate of it or that it signed.
    ///
    /// Fails with `Length` if a string in the section would exceed 2^32 - 1 bytes, and otherwise
    /// only when out of memory.
    pub fn revoke_key(&mut self, key: &KeyData) -> Result<()>
        ensures { Adds (Keys (flat (normal_key (key_of key.now)) ∷ []))
            (key_section (normal_key (key_of key.now))) (krl_bytes self.old) result
            (krl_bytes self.new) }
    {
        append(
            &mut self.bytes,
            &Framed {
                number: 2,
                body: KeyString(key),
            },
        )
    }

    /// Revokes the key with that SHA-1 digest of its encoding, and each certificate of it or that
    /// it signed.
    ///
    /// Fails only when out of memory.
    pub fn revoke_sha1(&mut self, digest: &[u8; 20]) -> Result<()>
        ensures { Adds (Sha1s (digest.now ∷ [])) (sha1_section digest.now) (krl_bytes self.old)
            result (krl_bytes self.new) }
    {
        append(
            &mut self.bytes,
            &Framed {
                number: 3,
                body: *digest,
            },
        )
    }

    /// Does by a SHA-256 digest what `revoke_sha1` does by a SHA-1 digest. OpenSSH reads it since
    /// version 7.9.
    pub fn revoke_sha256(&mut self, digest: &[u8; 32]) -> Result<()>
        ensures { Adds (Sha256s (digest.now ∷ [])) (sha256_section digest.now) (krl_bytes self.old)
            result (krl_bytes self.new) }
    {
        append(
            &mut self.bytes,
            &Framed {
                number: 5,
                body: *digest,
            },
        )
    }

    /// Revokes the authority's certificates with one of those serial numbers.
    ///
    /// Fails with `FormatEncoding` for the number 0, which no list can name, and otherwise as
    /// `revoke_key` does.
    pub fn revoke_serials(&mut self, authority: Option<&KeyData>, serials: &[u64]) -> Result<()>
        requires { IsWellFormedAuthority (authority_of authority) }
        ensures added { has_zero serials.now ≡ false →
            is_read_authority (authority_of authority.entry) ≡ true →
            AddsPart authority.entry (Numbers (Listed serials.now)) (serials_part serials.now)
            (krl_bytes self.old) result (krl_bytes self.new) }
        ensures unread { is_read_authority (authority_of authority.entry) ≡ false →
            Rejects (krl_bytes self.old) result (krl_bytes self.new) }
        ensures zero { has_zero serials.now ≡ true → Rejects (krl_bytes self.old) result
            (krl_bytes self.new) }
    {
        if !is_read_authority(authority) {
            return Err(Error::FormatEncoding);
        }
        if serials.contains(&0) {
            return Err(Error::FormatEncoding);
        }
        append_part(&mut self.bytes, authority, 0x20, Serials(serials))
    }

    /// Revokes the authority's certificates with those serial numbers, both ends included.
    ///
    /// Fails with `FormatEncoding` for the number 0 and for a range that ends before it begins, and
    /// otherwise as `revoke_key` does.
    pub fn revoke_range(&mut self, authority: Option<&KeyData>, first: u64, last: u64) -> Result<()>
        requires { IsWellFormedAuthority (authority_of authority) }
        ensures added { 0 < first → first ≤ last →
            is_read_authority (authority_of authority.entry) ≡ true →
            AddsPart authority.entry (Numbers (serials.Range first last)) (range_part first last)
            (krl_bytes self.old) result (krl_bytes self.new) }
        ensures unread { is_read_authority (authority_of authority.entry) ≡ false →
            Rejects (krl_bytes self.old) result (krl_bytes self.new) }
        ensures none { (first ≡ 0) ⊎ (last < first) → Rejects (krl_bytes self.old) result
            (krl_bytes self.new) }
    {
        if !is_read_authority(authority) {
            return Err(Error::FormatEncoding);
        }
        check_range(first, last)?;
        append_part(&mut self.bytes, authority, 0x21, Range { first, last })
    }

    /// Revokes the authority's certificates with that key id.
    ///
    /// Fails with `FormatEncoding` for a zero byte in it, and otherwise as `revoke_key` does.
    pub fn revoke_key_id(&mut self, authority: Option<&KeyData>, key_id: &str) -> Result<()>
        requires { IsWellFormedAuthority (authority_of authority) }
        ensures added { has_zero key_id.now ≡ false →
            is_read_authority (authority_of authority.entry) ≡ true →
            AddsPart authority.entry (KeyIds (key_id.now ∷ [])) (key_id_part key_id.now)
            (krl_bytes self.old) result (krl_bytes self.new) }
        ensures unread { is_read_authority (authority_of authority.entry) ≡ false →
            Rejects (krl_bytes self.old) result (krl_bytes self.new) }
        ensures zero { has_zero key_id.now ≡ true → Rejects (krl_bytes self.old) result
            (krl_bytes self.new) }
    {
        if !is_read_authority(authority) {
            return Err(Error::FormatEncoding);
        }
        if key_id.as_bytes().contains(&0) {
            return Err(Error::FormatEncoding);
        }
        append_part(&mut self.bytes, authority, 0x23, key_id)
    }
}

/// Revokes what the list does.
impl Revocations for Krl {
    ghost use Rattle.std.specs.Prelude.{false};
    ghost use Rattle.sshkey_krl.specs.Writing.{krl_of};
    ghost use Rattle.sshkey_krl.specs.Revocation as list;

    ghost revokes = { λ krl key asked. list.revokes (krl_of krl) key asked };

    ghost revokes_key = { λ krl key. list.revokes_key (krl_of krl) key };

    ghost revokes_none = { λ _. false };

    fn whole() {}

    fn revokes_none(&self) -> bool {
        false
    }

    fn revokes_key(&self, key: &[u8]) -> bool {
        self.as_ref().revokes_key(key)
    }

    fn revokes_certificate(
        &self,
        key: &[u8],
        signature_key: &[u8],
        serial: u64,
        key_id: &str,
    ) -> bool {
        self.as_ref()
            .revokes_certificate(key, signature_key, serial, key_id)
    }
}
