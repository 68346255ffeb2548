//! What is known of a login that is asked for.

use std::net::IpAddr;

/// A login that is asked for, and what is known of it.
#[derive(Debug, Clone, Copy)]
pub struct UserLogin<'a> {
    /// The text of authorized_keys, of one file: ask about one file after the other, as long as the
    /// answer is `NotListed` or `NotAllowed`. Or that of a file of principals
    /// (`log_in_by_principal`). Lines need not be UTF-8, as for sshd(8).
    pub text: &'a [u8],
    /// The name of the user who is to be let in. Only a certificate is asked about it, by
    /// authorized_keys.
    pub user: &'a str,
    /// The address of the client's socket, and no header of a proxy's. `None` if it has none: what
    /// `from` says then cannot be told.
    pub client: Option<IpAddr>,
    /// The name that was found for that address (sshd_config(5), `UseDNS`). With `None` the address
    /// stands for it, as in sshd(8) by its defaults.
    pub host: Option<&'a str>,
    /// The time, in seconds since 1970.
    pub unix_timestamp: u64,
    /// How many bits an RSA key has at least, as `RequiredRSASize` in sshd_config(5). Below 1,024,
    /// as 0, it is 1,024, which is sshd's own.
    pub least_rsa_bits: u32,
}
