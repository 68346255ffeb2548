//! What a builder is told before it is handed back.
//!
//! Of a call that returns a bare reference the prover does not find what the builder is left with
//! where the call fails; of one that returns it in a struct it does. So each setter that returns
//! the builder is `hand_back` of a call here, and is proved by hand from its clauses.

ghost use Rattle.std.specs.Borrow.{sem};
ghost use Rattle.std.specs.Prelude.{◌≡◌, string_bytes};
ghost use Rattle.sshkey_model.specs.Drafts.{Serial, Kind, KeyId, Comment, Principal, AllPrincipals, Critical, Extension};
ghost use Rattle.sshkey_cert_values.specs.CertificateFields.{type_of, option_of};
ghost use Rattle.sshkey_cert_builder.specs.Builders.{Chains, ChainsAlways, IsTheBuilder, StaysIfRefused, handed_back};

use super::Builder;
use sshkey_base::Result;
use sshkey_cert_values::CertType;

/// A builder that was told something, and goes back to the caller.
pub(super) struct Loan<'a> {
    builder: &'a mut Builder,
}

impl Drop for Loan<'_> {
    fn drop(self)
        ensures { self.exit.0.now ≡ self.entry.builder.now }
    {
        let Loan { builder: _ } = self;
    }
}

impl<'a> Loan<'a> {
    fn into_inner(self) -> &'a mut Builder
        ensures { result ≡ self.entry.builder }
    {
        let Loan { builder } = self;
        builder
    }
}

/// The builder itself, or the error.
pub(super) fn hand_back<'a>(loan: Result<Loan<'a>>) -> Result<&'a mut Builder>
    ensures { result ≡ handed_back loan.entry }
{
    match loan {
        Ok(loan) => Ok(loan.into_inner()),
        Err(error) => Err(error),
    }
}

impl Builder {
    /// `serial`, with the builder in a struct.
    pub(super) fn chain_serial(&mut self, serial: u64) -> Result<Loan<'_>>
        ensures* stays { sem 𝓛 (StaysIfRefused self.entry (handed_back result)) }
        ensures same_reference { IsTheBuilder self.entry (handed_back result) }
        ensures step { ChainsAlways (Serial serial) self.old (handed_back result) }
    {
        self.set_serial(serial)?;
        Ok(Loan { builder: self })
    }

    /// `cert_type`, with the builder in a struct.
    pub(super) fn chain_cert_type(&mut self, cert_type: CertType) -> Result<Loan<'_>>
        ensures* stays { sem 𝓛 (StaysIfRefused self.entry (handed_back result)) }
        ensures same_reference { IsTheBuilder self.entry (handed_back result) }
        ensures step { ChainsAlways (Kind (type_of cert_type)) self.old (handed_back result) }
    {
        self.set_cert_type(cert_type)?;
        Ok(Loan { builder: self })
    }

    /// `key_id`, with the builder in a struct.
    pub(super) fn chain_key_id(&mut self, key_id: String) -> Result<Loan<'_>>
        ensures* stays { sem 𝓛 (StaysIfRefused self.entry (handed_back result)) }
        ensures same_reference { IsTheBuilder self.entry (handed_back result) }
        ensures step { ChainsAlways (KeyId (string_bytes key_id)) self.old (handed_back result) }
    {
        self.set_key_id(key_id)?;
        Ok(Loan { builder: self })
    }

    /// `comment`, with the builder in a struct.
    pub(super) fn chain_comment(&mut self, comment: String) -> Result<Loan<'_>>
        ensures* stays { sem 𝓛 (StaysIfRefused self.entry (handed_back result)) }
        ensures same_reference { IsTheBuilder self.entry (handed_back result) }
        ensures step { ChainsAlways (Comment (string_bytes comment)) self.old (handed_back result) }
    {
        self.set_comment(comment)?;
        Ok(Loan { builder: self })
    }

    /// `valid_principal`, with the builder in a struct.
    pub(super) fn chain_valid_principal(&mut self, principal: String) -> Result<Loan<'_>>
        ensures* stays { sem 𝓛 (StaysIfRefused self.entry (handed_back result)) }
        ensures same_reference { IsTheBuilder self.entry (handed_back result) }
        ensures step { Chains (Principal (string_bytes principal)) self.old (handed_back result) }
    {
        self.add_valid_principal(principal)?;
        Ok(Loan { builder: self })
    }

    /// `all_principals_valid`, with the builder in a struct.
    pub(super) fn chain_all_principals_valid(&mut self) -> Result<Loan<'_>>
        ensures* stays { sem 𝓛 (StaysIfRefused self.entry (handed_back result)) }
        ensures same_reference { IsTheBuilder self.entry (handed_back result) }
        ensures step { ChainsAlways AllPrincipals self.old (handed_back result) }
    {
        self.set_all_principals_valid()?;
        Ok(Loan { builder: self })
    }

    /// `critical_option`, with the builder in a struct.
    pub(super) fn chain_critical_option(&mut self, name: String, value: String) -> Result<Loan<'_>>
        ensures* stays { sem 𝓛 (StaysIfRefused self.entry (handed_back result)) }
        ensures same_reference { IsTheBuilder self.entry (handed_back result) }
        ensures step { Chains (Critical (option_of (name, value))) self.old (handed_back result) }
    {
        self.add_critical_option(name, value)?;
        Ok(Loan { builder: self })
    }

    /// `extension`, with the builder in a struct.
    pub(super) fn chain_extension(&mut self, name: String, value: String) -> Result<Loan<'_>>
        ensures* stays { sem 𝓛 (StaysIfRefused self.entry (handed_back result)) }
        ensures same_reference { IsTheBuilder self.entry (handed_back result) }
        ensures step { Chains (Extension (option_of (name, value))) self.old (handed_back result) }
    {
        self.add_extension(name, value)?;
        Ok(Loan { builder: self })
    }
}
