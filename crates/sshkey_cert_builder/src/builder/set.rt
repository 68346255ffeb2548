//! The setters of a builder that return no reference to it.

ghost use Rattle.std.specs.Prelude.{◌≡◌, string_bytes};
ghost use Rattle.sshkey_model.specs.Drafts.{Serial, Kind, KeyId, Comment, Principal, AllPrincipals, Critical, Extension};
ghost use Rattle.sshkey_cert_values.specs.CertificateFields.{type_of, option_of};
ghost use Rattle.sshkey_cert_builder.specs.Builders.{TakesStep, TakesStepAlways, given_key};

use super::Builder;
use sshkey_base::certificate::Field;
use sshkey_base::{Error, Result, Text};
use sshkey_cert_values::CertType;

impl Builder {
    /// Sets the serial number and fails as `serial` does, and returns no reference.
    pub fn set_serial(&mut self, serial: u64) -> Result<()>
        ensures step { TakesStepAlways (Serial serial) self.old result self.new }
        ensures key { given_key self.new ≡ given_key self.old }
    {
        if self.serial.is_some() {
            return Err(Error::CertificateFieldInvalid(Field::Serial));
        }
        self.serial = Some(serial);
        Ok(())
    }

    /// Sets the type and fails as `cert_type` does, and returns no reference.
    pub fn set_cert_type(&mut self, cert_type: CertType) -> Result<()>
        ensures step { TakesStepAlways (Kind (type_of cert_type)) self.old result self.new }
        ensures key { given_key self.new ≡ given_key self.old }
    {
        if self.cert_type.is_some() {
            return Err(Error::CertificateFieldInvalid(Field::CertType));
        }
        self.cert_type = Some(cert_type);
        Ok(())
    }

    /// Sets the key id and fails as `key_id` does, and returns no reference.
    pub fn set_key_id(&mut self, key_id: String) -> Result<()>
        ensures step { TakesStepAlways (KeyId (string_bytes key_id)) self.old result self.new }
        ensures key { given_key self.new ≡ given_key self.old }
    {
        if self.key_id.is_some() {
            return Err(Error::CertificateFieldInvalid(Field::KeyId));
        }
        self.key_id = Some(Text::new(key_id));
        Ok(())
    }

    /// Sets the comment and fails as `comment` does, and returns no reference.
    pub fn set_comment(&mut self, comment: String) -> Result<()>
        ensures step { TakesStepAlways (Comment (string_bytes comment)) self.old result self.new }
        ensures key { given_key self.new ≡ given_key self.old }
    {
        if self.comment.is_some() {
            return Err(Error::CertificateFieldInvalid(Field::Comment));
        }
        self.comment = Some(Text::new(comment));
        Ok(())
    }

    /// Adds a principal and fails as `valid_principal` does, and returns no reference. Reject names
    /// with a zero byte, as it says.
    #[tactic(auto, using(crate::proofs::Drafts::map_added))]
    pub fn add_valid_principal(&mut self, principal: String) -> Result<()>
        ensures step { TakesStep (Principal (string_bytes principal)) self.old result self.new }
        ensures key { given_key self.new ≡ given_key self.old }
    {
        match &mut self.valid_principals {
            Some(principals) => principals.push(principal)?,
            None => {
                let mut principals = Vec::new(self.alloc);
                principals.push(principal)?;
                self.valid_principals = Some(principals);
            }
        }
        Ok(())
    }

    /// Makes all principals valid as `all_principals_valid` does, and returns no reference.
    pub fn set_all_principals_valid(&mut self) -> Result<()>
        ensures step { TakesStepAlways AllPrincipals self.old result self.new }
        ensures key { given_key self.new ≡ given_key self.old }
    {
        self.valid_principals = Some(Vec::new(self.alloc));
        Ok(())
    }

    /// Adds an option and fails as `critical_option` does, and returns no reference.
    pub fn add_critical_option(&mut self, name: String, value: String) -> Result<()>
        ensures step { TakesStep (Critical (option_of (name, value))) self.old result self.new }
        ensures key { given_key self.new ≡ given_key self.old }
    {
        if self.critical_options.contains_key(name.as_str()) {
            return Err(Error::CertificateFieldInvalid(Field::CriticalOptions));
        }
        self.critical_options.insert(name, value)?;
        Ok(())
    }

    /// Adds an option and fails as `extension` does, and returns no reference.
    pub fn add_extension(&mut self, name: String, value: String) -> Result<()>
        ensures step { TakesStep (Extension (option_of (name, value))) self.old result self.new }
        ensures key { given_key self.new ≡ given_key self.old }
    {
        if self.extensions.contains_key(name.as_str()) {
            return Err(Error::CertificateFieldInvalid(Field::Extensions));
        }
        self.extensions.insert(name, value)?;
        Ok(())
    }
}
