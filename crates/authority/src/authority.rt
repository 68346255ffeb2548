//! An authority.

ghost use Rattle.std.specs.Prelude.{◌≡◌, false};
ghost use Rattle.ssh_key.specs.krl.Writing.{has_zero};

use crate::certify::certify;
use crate::limits::Limits;
use crate::request::Request;
use ssh_key::certificate::Field;
use ssh_key::public::KeyData;
use ssh_key::revocation::Krl;
use ssh_key::{Certificate, Error, Result, SigningKey};
use std::alloc::Global;
use std::num::NonZeroU64;

/// An authority: its limits, the serial number of its next certificate, and the numbers of those
/// that it took back.
#[derive(Debug, Drop)]
pub struct Authority {
    limits: Limits,
    next_serial: NonZeroU64,
    revoked: Vec<u64>,
    ghost numbered: { has_zero revoked.items ≡ false },
}

impl Authority {
    ghost use Rattle.std.specs.Prelude.{◌<◌, ◌+◌, ◌⊎◌, ◌↔◌, ◌++◌, ◌∷◌, [], IfErr, IfOk, OnErr, OnOk, IsTrue, Contains};
    ghost use Rattle.ssh_key.specs.cert.Certificates.{certificate_of};
    ghost use Rattle.ssh_key.specs.keys.Keys.{key_of};
    ghost use Rattle.ssh_key.specs.krl.Writing.{krl_of};
    ghost use Rattle.ssh_key.specs.model.Certificates.{AreSignedFields};
    ghost use Rattle.ssh_key.specs.model.Keys.{IsKey};
    ghost use Rattle.authority.specs.Issuance.{IsLeft, IssuesExactly, IsWithinLimits, MayIssue, next_of, IsHistory, RefusesSerial, serial_of};
    ghost use Rattle.authority.specs.Revoked.{IsStated, RefusesToList, TakesBack};

    /// An authority with these limits that took nothing back, and whose first certificate has that
    /// serial number. No certificate has the number 0: to OpenSSH that is none, and a list of
    /// revoked keys (KRL) can't name it. Takes no memory.
    pub fn new(alloc: Global, limits: Limits, first_serial: NonZeroU64) -> Authority
        ensures limits { result.limits ≡ limits }
        ensures serial { result.next_serial ≡ first_serial }
        ensures revoked { result.revoked.items ≡ [] }
    {
        Authority {
            limits,
            next_serial: first_serial,
            revoked: Vec::new(alloc),
        }
    }

    /// The certificate that is asked for, without a comment, if the request is within the limits at
    /// that time, in seconds since 1970.
    ///
    /// Fails with `CertificateFieldInvalid` if it is not, as `Limits::check` does, or if no serial
    /// number is left (`Field::Serial`); then nothing is changed. Other refusals are those of
    /// `Builder::new` and of `Builder::sign`. A serial number is used up also if signing is
    /// refused, since the signer may have signed. The signer is asked for that certificate alone.
    ///
    /// It does not ask who asks: that whoever does is the users in the request, and holds the
    /// private key, is the caller's to establish first, as by a signature over a challenge.
    pub fn issue<S: SigningKey>(
        &mut self,
        alloc: Global,
        request: Request,
        unix_timestamp: u64,
        nonce: Vec<u8>,
        signer: &S,
    ) -> Result<Certificate>
        requires permits { MayIssue S.permits S.public_of signer.now self.old unix_timestamp request
            nonce.items }
        ensures issued { IssuesExactly (S.Raw.accepts (S.raw_of signer.now))
            (key_of (S.public_of signer.now)) (S.refuses signer.now) self.old.limits unix_timestamp
            request (next_of self.old) nonce.items result }
        ensures form { IsKey (key_of request.key) → IsKey (key_of (S.public_of signer.now))
            → IfOk result (λ c. AreSignedFields (certificate_of c).signed) }
        ensures numbered { IfOk result (λ c. 0 < (certificate_of c).signed.serial) }
        ensures history { IsHistory (next_of self.old) (serial_of result) (next_of self.new) }
        ensures used { IsWithinLimits self.old.limits unix_timestamp request
            → IsLeft (next_of self.old) → next_of self.new ≡ next_of self.old + 1 }
        ensures unused { ((IsWithinLimits self.old.limits unix_timestamp request → ⊥)
            ⊎ ¬ IsLeft (next_of self.old)) → next_of self.new ≡ next_of self.old }
        ensures limits { self.new.limits ≡ self.old.limits }
        ensures revoked { self.new.revoked ≡ self.old.revoked }
    {
        self.limits.check(&request, unix_timestamp)?;
        let serial = self.next_serial;
        let Some(next) = serial.checked_add(1) else {
            return Err(Error::CertificateFieldInvalid(Field::Serial));
        };
        self.next_serial = next;
        certify(alloc, request, serial.get(), nonce, signer)
    }

    /// Takes back the certificate of that serial number. Refuses 0, which no certificate has, with
    /// `CertificateFieldInvalid(Field::Serial)`, and else only when out of memory; then nothing is
    /// changed.
    #[tactic(auto, using(crate::proofs::Revoked::numbered))]
    pub fn revoke(&mut self, serial: u64) -> Result<()>
        ensures revoked { OnOk result
            (self.new.revoked.items ≡ self.old.revoked.items ++ serial ∷ []) }
        ensures numbered { OnOk result (0 < serial) }
        ensures unchanged { OnErr result (self.new.revoked.items ≡ self.old.revoked.items) }
        ensures refused { IfErr result (RefusesSerial serial) }
        ensures limits { self.new.limits ≡ self.old.limits }
        ensures serial { self.new.next_serial ≡ self.old.next_serial }
    {
        if serial == 0 {
            return Err(Error::CertificateFieldInvalid(Field::Serial));
        }
        Ok(self.revoked.push(serial)?)
    }

    /// The serial numbers of the certificates that were taken back, in that order.
    pub fn revoked(&self) -> &[u64]
        ensures { result.now ≡ self.now.revoked.items }
    {
        &self.revoked
    }

    /// A key revocation list with that number and date, in seconds since 1970, for sshd(8) and
    /// ssh(1): it revokes the certificates that were taken back, of those that this key signed, and
    /// nothing else. Give each list a higher number than the one before.
    ///
    /// Fails with `FormatEncoding` for a key that OpenSSH does not read, with `Length` if the serial
    /// numbers or the key have 2^32 bytes or more, and otherwise only when out of memory.
    pub fn krl(&self, alloc: Global, number: u64, date: u64, public_key: &KeyData) -> Result<Krl>
        requires { IsKey (key_of public_key.now) }
        ensures stated { IfOk result (λ k. IsStated number date (krl_of k)) }
        ensures revoked { IfOk result
            (λ k. TakesBack (key_of public_key.now) self.now.revoked.items (krl_of k)) }
        ensures refused { IfErr result (RefusesToList (key_of public_key.now)
            self.now.revoked.items) }
    {
        let mut krl = Krl::new(alloc, number, date, "")?;
        krl.revoke_serials(Some(public_key), self.revoked.as_slice())?;
        Ok(krl)
    }

    /// Whether the certificate of that serial number was taken back.
    pub fn is_revoked(&self, serial: u64) -> bool
        ensures { IsTrue result ↔ Contains self.now.revoked.items serial }
    {
        self.revoked.contains(&serial)
    }
}
