//! How certificates are made.

ghost use Rattle.rand_core.specs.Stream.{fill_bytes};
ghost use Rattle.std.specs.Borrow.{sem};
ghost use Rattle.std.specs.Prelude.{◌≡◌, ◌≢◌, Err, IfOk, string_bytes};
ghost use Rattle.sshkey_base.specs.declared.error.Error.TheVariants.{Memory};
ghost use Rattle.sshkey_keys.specs.Keys.{key_of};
ghost use Rattle.sshkey_model.specs.Certificates.{forever};
ghost use Rattle.sshkey_model.specs.Drafts.{Serial, Kind, KeyId, Comment, Principal, AllPrincipals, Critical, Extension, begun, bad_start, bad_window};
ghost use Rattle.sshkey_cert_values.specs.CertificateFields.{type_of, option_of, end_of, time_of};
ghost use Rattle.sshkey_cert_builder.specs.Builders.{draft_of, IsWindow, BeginsDraft, BeginsInMemory, Chains, ChainsAlways, IsTheBuilder, StaysIfRefused, given_key};

mod chain;
mod set;
mod sign;

use chain::hand_back;
use rand_core::{CryptoRng, Rng};
use sshkey_base::certificate::Field;
use sshkey_base::{Bytes, Error, Result, Text};
use sshkey_cert_values::{CertType, EndTime, OptionsMap, UnixTime};
use sshkey_keys::KeyData;
use std::alloc::Global;

/// Collects the fields of a certificate, and signs them.
///
/// There are two of each setter: `serial` returns the builder, so that calls can be chained, and
/// `set_serial` returns `Ok(())`. If either fails, the builder is as it was. In a caller's proof
/// the search finds that of `set_serial`; of `serial` it has to be proved by hand.
///
/// ```rust
/// // as in crates/authority/src/certify.rt
/// let mut builder = Builder::new(alloc, nonce, key, valid_after, valid_before)?;
/// builder.set_serial(serial)?;
/// builder.set_key_id(key_id)?;
/// add_principals(&mut builder, principals)?;
/// builder.sign(alloc, signer)
/// ```
pub struct Builder {
    alloc: Global,
    nonce: Bytes,
    public_key: KeyData,
    serial: Option<u64>,
    cert_type: Option<CertType>,
    key_id: Option<Text>,
    valid_principals: Option<Vec<String>>,
    valid_after: UnixTime,
    valid_before: EndTime,
    critical_options: OptionsMap,
    extensions: OptionsMap,
    comment: Option<Text>,
}

impl Drop for Builder {
    fn drop(self) {
        let Builder {
            alloc: _,
            nonce: _,
            public_key: _,
            serial: _,
            cert_type: _,
            key_id: _,
            valid_principals: _,
            valid_after: _,
            valid_before: _,
            critical_options: _,
            extensions: _,
            comment: _,
        } = self;
    }
}

impl Builder {
    /// How many bytes a nonce should have: 16.
    pub const RECOMMENDED_NONCE_SIZE: usize = 16;

    /// A builder for a certificate of that key, for times from `valid_after` on and before
    /// `valid_before`, in seconds since 1970. Does not allocate.
    ///
    /// Fails with `CertificateFieldInvalid` of the first time that is above 2^63 - 1,
    /// `Field::ValidAfter` or `Field::ValidBefore`, and else of `Field::ValidBefore` if the end is
    /// before the beginning.
    ///
    /// Takes a key under a private-use name too. Where that is another kind's name, as
    /// `ssh-ed25519@openssh.com` is, what is signed is a certificate of that kind's key: refuse
    /// such keys (`KeyData::is_other`), as `Limits::check` of `authority` does.
    pub fn new(
        alloc: Global,
        nonce: Vec<u8>,
        public_key: KeyData,
        valid_after: u64,
        valid_before: u64,
    ) -> Result<Builder>
        ensures begins { BeginsDraft (bad_window valid_after valid_before)
            (begun nonce.items (key_of public_key) valid_after valid_before) result }
        ensures key { IfOk result (λ b. given_key b ≡ public_key) }
    {
        let (valid_after, valid_before) = window(valid_after, valid_before)?;
        Ok(Builder::begun(alloc, nonce, public_key, valid_after, valid_before))
    }

    /// A builder for a certificate of that key without an end, for times from `valid_after` on.
    /// Does not allocate.
    ///
    /// Fails with `CertificateFieldInvalid(Field::ValidAfter)` if that is above 2^63 - 1.
    pub fn new_forever(
        alloc: Global,
        nonce: Vec<u8>,
        public_key: KeyData,
        valid_after: u64,
    ) -> Result<Builder>
        ensures begins { BeginsDraft (bad_start valid_after)
            (begun nonce.items (key_of public_key) valid_after forever) result }
        ensures key { IfOk result (λ b. given_key b ≡ public_key) }
    {
        let Ok(valid_after) = UnixTime::new(valid_after) else {
            return Err(Error::CertificateFieldInvalid(Field::ValidAfter));
        };
        Ok(Builder::begun(alloc, nonce, public_key, valid_after, EndTime::forever()))
    }

    /// As `new`, with the next 16 bytes of the generator as the nonce.
    ///
    /// Allocates the 16 bytes first, and fails with `Memory` if they are refused; the generator is
    /// then as it was. Otherwise draws 16 bytes, and then fails as `new` does.
    pub fn new_with_random_nonce<R: Rng + CryptoRng>(
        alloc: Global,
        rng: &mut R,
        public_key: KeyData,
        valid_after: u64,
        valid_before: u64,
    ) -> Result<Builder>
        ensures drawn { result ≢ Err Memory
            → R.stream rng.new ≡ (fill_bytes 16 (R.stream rng.old)).1 }
        ensures kept { result ≡ Err Memory → rng.new ≡ rng.old }
        ensures begins { BeginsInMemory (bad_window valid_after valid_before)
            (begun (fill_bytes 16 (R.stream rng.old)).0 (key_of public_key) valid_after
            valid_before) result }
        ensures key { IfOk result (λ b. given_key b ≡ public_key) }
    {
        let mut nonce = vec![in alloc; 0u8; Builder::RECOMMENDED_NONCE_SIZE]?;
        rng.fill_bytes(&mut nonce);
        Builder::new(alloc, nonce, public_key, valid_after, valid_before)
    }

    /// A builder with nothing set.
    fn begun(
        alloc: Global,
        nonce: Vec<u8>,
        public_key: KeyData,
        valid_after: UnixTime,
        valid_before: EndTime,
    ) -> Builder
        ensures draft { draft_of result
            ≡ begun nonce.items (key_of public_key) (time_of valid_after) (end_of valid_before) }
        ensures key { given_key result ≡ public_key }
    {
        Builder {
            alloc,
            nonce: Bytes::new(nonce),
            public_key,
            serial: None,
            cert_type: None,
            key_id: None,
            valid_principals: None,
            valid_after,
            valid_before,
            critical_options: OptionsMap::new(alloc),
            extensions: OptionsMap::new(alloc),
            comment: None,
        }
    }

    /// Sets the serial number. Fails with `CertificateFieldInvalid(Field::Serial)` if it was set.
    /// Does not allocate. To OpenSSH 0 is none, and a list of revoked keys (KRL) can't name it.
    pub fn serial(&mut self, serial: u64) -> Result<&mut Builder>
        ensures* stays { sem 𝓛 (StaysIfRefused self.entry result) }
        ensures same_reference { IsTheBuilder self.entry result }
        ensures step { ChainsAlways (Serial serial) self.old result }
    {
        hand_back(self.chain_serial(serial))
    }

    /// Sets the type. Fails with `CertificateFieldInvalid(Field::CertType)` if it was set. Does not
    /// allocate.
    pub fn cert_type(&mut self, cert_type: CertType) -> Result<&mut Builder>
        ensures* stays { sem 𝓛 (StaysIfRefused self.entry result) }
        ensures same_reference { IsTheBuilder self.entry result }
        ensures step { ChainsAlways (Kind (type_of cert_type)) self.old result }
    {
        hand_back(self.chain_cert_type(cert_type))
    }

    /// Sets the key id. Fails with `CertificateFieldInvalid(Field::KeyId)` if it was set. Does not
    /// allocate.
    pub fn key_id(&mut self, key_id: String) -> Result<&mut Builder>
        ensures* stays { sem 𝓛 (StaysIfRefused self.entry result) }
        ensures same_reference { IsTheBuilder self.entry result }
        ensures step { ChainsAlways (KeyId (string_bytes key_id)) self.old result }
    {
        hand_back(self.chain_key_id(key_id))
    }

    /// Sets the comment. Fails with `CertificateFieldInvalid(Field::Comment)` if it was set. Does
    /// not allocate.
    pub fn comment(&mut self, comment: String) -> Result<&mut Builder>
        ensures* stays { sem 𝓛 (StaysIfRefused self.entry result) }
        ensures same_reference { IsTheBuilder self.entry result }
        ensures step { ChainsAlways (Comment (string_bytes comment)) self.old result }
    {
        hand_back(self.chain_comment(comment))
    }

    /// Adds a principal. After `all_principals_valid` the certificate is only for the principals
    /// added since. Fails only when out of memory.
    ///
    /// Takes any text. sshd takes a name with a zero byte to end there, so that `root` with one
    /// after it is root: refuse such names, which ssh-keygen can't make either.
    pub fn valid_principal(&mut self, principal: String) -> Result<&mut Builder>
        ensures* stays { sem 𝓛 (StaysIfRefused self.entry result) }
        ensures same_reference { IsTheBuilder self.entry result }
        ensures step { Chains (Principal (string_bytes principal)) self.old result }
    {
        hand_back(self.chain_valid_principal(principal))
    }

    /// Makes all principals valid: drops those that were added. Never fails, and does not allocate.
    pub fn all_principals_valid(&mut self) -> Result<&mut Builder>
        ensures* stays { sem 𝓛 (StaysIfRefused self.entry result) }
        ensures same_reference { IsTheBuilder self.entry result }
        ensures step { ChainsAlways AllPrincipals self.old result }
    {
        hand_back(self.chain_all_principals_valid())
    }

    /// Adds one of the critical options. Fails with
    /// `CertificateFieldInvalid(Field::CriticalOptions)` if there is one of that name, and
    /// otherwise only when out of memory.
    pub fn critical_option(&mut self, name: String, value: String) -> Result<&mut Builder>
        ensures* stays { sem 𝓛 (StaysIfRefused self.entry result) }
        ensures same_reference { IsTheBuilder self.entry result }
        ensures step { Chains (Critical (option_of (name, value))) self.old result }
    {
        hand_back(self.chain_critical_option(name, value))
    }

    /// Adds one of the extensions. Fails with `CertificateFieldInvalid(Field::Extensions)` if there
    /// is one of that name, and otherwise only when out of memory.
    pub fn extension(&mut self, name: String, value: String) -> Result<&mut Builder>
        ensures* stays { sem 𝓛 (StaysIfRefused self.entry result) }
        ensures same_reference { IsTheBuilder self.entry result }
        ensures step { Chains (Extension (option_of (name, value))) self.old result }
    {
        hand_back(self.chain_extension(name, value))
    }
}

/// Both times of a window. `CertificateFieldInvalid` of the first that is above 2^63 - 1, or of
/// `valid_before` where that is before `valid_after`.
fn window(valid_after: u64, valid_before: u64) -> Result<(UnixTime, EndTime)>
    ensures { IsWindow valid_after valid_before result }
{
    let Ok(valid_after) = UnixTime::new(valid_after) else {
        return Err(Error::CertificateFieldInvalid(Field::ValidAfter));
    };
    let Ok(valid_before) = UnixTime::new(valid_before) else {
        return Err(Error::CertificateFieldInvalid(Field::ValidBefore));
    };
    if valid_before.secs() < valid_after.secs() {
        return Err(Error::CertificateFieldInvalid(Field::ValidBefore));
    }
    Ok((valid_after, EndTime::from(valid_before)))
}
