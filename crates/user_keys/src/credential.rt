//! What a client offers.

ghost use Rattle.std.specs.Prelude.{◌≡◌};
ghost use Rattle.sshkey_keys.specs.Keys.{key_of};
ghost use Rattle.user_keys.specs.UserLogins.{credential_of, is_certificate, listed_key};

use sshkey_cert::Certificate;
use sshkey_keys::KeyData;

/// What a client offers.
#[derive(Clone, Copy)]
pub(crate) enum Credential<'a> {
    Key(&'a KeyData),
    Certificate(&'a Certificate),
}

impl<'a> Credential<'a> {
    /// Whose lines let it in: the key's, or the authority's that signed the certificate.
    pub(crate) fn listed_key(self) -> &'a KeyData
        ensures { key_of result.now ≡ listed_key (credential_of self.entry) }
    {
        match self {
            Credential::Key(key) => key,
            Credential::Certificate(certificate) => certificate.signature_key(),
        }
    }

    /// Whether it is a certificate, for which a line is one of an authority.
    pub(crate) fn is_certificate(self) -> bool
        ensures { result ≡ is_certificate (credential_of self.entry) }
    {
        match self {
            Credential::Key(_) => false,
            Credential::Certificate(_) => true,
        }
    }
}
