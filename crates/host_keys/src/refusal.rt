//! Why a host is refused.

ghost use Rattle.std.specs.Prelude.{◌≡◌, ◌↔◌, IsTrue};
ghost use Rattle.sshkey_base.specs.declared.error.Error.TheVariants.{Memory};
ghost use Rattle.host_keys.specs.Answers.{IsRefusalFor, IsRefusalForHost, answer_of, comes_first, is_final, of_both, verdict_answer};
ghost use Rattle.host_keys.specs.declared.refusal.HostRefusal.TheVariants.{Unknown};

use sshkey_base::Error;
use sshkey_cert::CertificateRefusal;
use sshkey_known_hosts::Verdict;
use sshkey_matching::HostFault;
use std::alloc::AllocError;

/// Why what a host shows is not taken for the host's.
#[derive(Debug, Drop)]
pub enum HostRefusal {
    /// What the host shows is revoked: a line revokes the key, or of a certificate one of its two
    /// keys, or `revocations` revokes the key or the certificate.
    Revoked,
    /// A line can't be read that could be one for the host, perhaps a revocation.
    Unreadable,
    /// The host is known by other keys, and a certificate's authority is none of it.
    Changed,
    /// Nothing is known of the host: no key, and of a certificate neither its authority.
    Unknown,
    /// ssh(1) accepts no such key, by its kind or its size (`openssh_limits::openssh_accepts_key`),
    /// or no such key as signed the certificate.
    UnacceptedKey,
    /// The bytes spell no certificate; or it is by an authority of the host, but for users, with a
    /// critical option, or with a text that ssh(1) does not read (`Error::CertificateFieldInvalid`).
    Certificate(Error),
    /// The certificate is by an authority of the host, but not valid for it now: for its signature,
    /// the time, its window or its principals. Or its key is the host's, and its signature does not
    /// verify.
    Invalid(CertificateRefusal),
    /// The bytes are not the certificate's normal form, and so not those that were signed.
    NotNormalForm,
    /// Nothing can be asked about the host: the port is 0, the host is empty, or it is like an
    /// address and has no text as one.
    Host(HostFault),
    /// Memory ran out.
    Memory,
}

impl HostRefusal {
    /// The refusal of a certificate for that error.
    pub(crate) fn of_certificate(error: Error) -> HostRefusal
        ensures { IsRefusalFor error result }
    {
        if error.is_memory() {
            return HostRefusal::Memory;
        }
        HostRefusal::Certificate(error)
    }

    /// Whether the certified key is not asked after this refusal of a certificate.
    pub(crate) fn is_final(&self) -> bool
        ensures { result ≡ is_final self.now }
    {
        matches!(
            self,
            HostRefusal::Revoked | HostRefusal::Unreadable | HostRefusal::Memory
        )
    }

    /// This refusal of a certificate, or that of its key, which was asked then.
    pub(crate) fn or_of_key(self, why: HostRefusal) -> HostRefusal
        ensures { result ≡ of_both self why }
    {
        if why.comes_first() || self.is_unknown() {
            return why;
        }
        self
    }

    /// Whether it is a key's for memory, or for the signature over it alone.
    fn comes_first(&self) -> bool
        ensures { result ≡ comes_first self.now }
    {
        matches!(
            self,
            HostRefusal::Memory | HostRefusal::Invalid(CertificateRefusal::Signature)
        )
    }

    fn is_unknown(&self) -> bool
        ensures { IsTrue result ↔ (self.now ≡ Unknown) }
    {
        matches!(self, HostRefusal::Unknown)
    }

    /// The refusal of a host for that fault.
    pub(crate) fn of_host(fault: HostFault) -> HostRefusal
        ensures { IsRefusalForHost fault result }
    {
        match fault {
            HostFault::Memory => HostRefusal::Memory,
            HostFault::Port | HostFault::Empty | HostFault::Address => HostRefusal::Host(fault),
        }
    }
}

/// What follows from a verdict.
fn verdict_answer(verdict: Verdict) -> Result<(), HostRefusal>
    ensures { result ≡ verdict_answer verdict }
{
    match verdict {
        Verdict::Trusted => Ok(()),
        Verdict::Revoked => Err(HostRefusal::Revoked),
        Verdict::Unreadable => Err(HostRefusal::Unreadable),
        Verdict::Changed => Err(HostRefusal::Changed),
        Verdict::Unknown => Err(HostRefusal::Unknown),
    }
}

/// What follows from whether something is revoked, and from what known_hosts says of it.
pub(crate) fn answer(
    revoked: Result<bool, AllocError>,
    said: sshkey_base::Result<Verdict>,
) -> Result<(), HostRefusal>
    ensures { result ≡ answer_of revoked said }
{
    match (revoked, said) {
        (Ok(true), _) => Err(HostRefusal::Revoked),
        (Ok(false), Ok(verdict)) => verdict_answer(verdict),
        (Err(_), _) | (_, Err(_)) => Err(HostRefusal::Memory),
    }
}
