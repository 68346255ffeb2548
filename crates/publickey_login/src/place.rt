//! Where and when a client asks.

ghost use Rattle.std.specs.Prelude.{◌≡◌};
ghost use Rattle.publickey_login.specs.Sources.{client_known};

use login_policy::Client;

/// Where a client is, and when it asks.
#[derive(Debug, Clone, Copy)]
pub struct Place<'a> {
    /// Where the client is. `Client::LeftToCaller` counts only `BySshd`, which judges
    /// `source-address` itself; else it is `Client::Unknown`.
    pub client: Client,
    /// The name that was found for the client's address (sshd_config(5), `UseDNS`). With `None` the
    /// address stands for it, as in sshd(8) by its defaults.
    pub host: Option<&'a str>,
    /// The time, in seconds since 1970.
    pub unix_timestamp: u64,
}

/// The client's place, where an address that is left to the caller is not known.
pub fn client_known(client: Client) -> Client
    ensures { result ≡ client_known client }
{
    match client {
        Client::At(address) => Client::At(address),
        Client::Unknown | Client::LeftToCaller => Client::Unknown,
    }
}
