//! Under which name a host is asked about.

ghost use Rattle.std.specs.Prelude.{◌≡◌, ℕ, List, MatchResult};
ghost use Rattle.sshkey_matching.specs.AskedHosts.{IsAsked, IsHostFault, asked_name};
ghost use Rattle.sshkey_matching.specs.declared.host.HostFault.{HostFault};
ghost use Rattle.host_keys.specs.Answers.{IsRefusalForHost};
ghost use Rattle.host_keys.specs.Hosts.{login_of};

use crate::host_check::HostCheck;
use crate::refusal::HostRefusal;
use sshkey_matching::{AskedHost, asked_host};
use std::alloc::Global;

impl HostCheck<'_> {
    /// The name under which known_hosts and certificates list the host.
    pub(crate) fn asked(&self, alloc: Global) -> Result<AskedHost<'_>, HostRefusal>
        ensures { MatchResult result
            (λ asked. IsAsked self.now.host.now self.now.port (asked_name asked))
            (λ r. (f : HostFault) × IsHostFault self.now.host.now self.now.port f
            × IsRefusalForHost f r) }
    {
        match asked_host(alloc, self.host, self.port) {
            Ok(asked) => Ok(asked),
            Err(fault) => Err(HostRefusal::of_host(fault)),
        }
    }

    /// The same host under that name.
    pub(crate) fn under<'b>(&'b self, name: &'b str) -> HostCheck<'b>
        ensures { (hmac : List ℕ → List ℕ → List ℕ)
            → login_of result hmac ≡ record (login_of self.now hmac) { host = name.now } }
    {
        HostCheck {
            texts: self.texts,
            host: name,
            port: self.port,
            unix_timestamp: self.unix_timestamp,
            least_rsa_bits: self.least_rsa_bits,
        }
    }
}
