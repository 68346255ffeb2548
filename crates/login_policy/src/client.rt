//! Where a client is.

use std::net::IpAddr;

/// Where the client of a login is, which a certificate with `source-address` asks.
#[derive(Debug, Clone, Copy)]
pub enum Client {
    /// At this address of its socket, and no header of a proxy's.
    At(IpAddr),
    /// At none that is known: then a certificate with `source-address` lets nobody in.
    Unknown,
    /// Where the caller judges: it has to let in from the networks of `source-address` alone, as
    /// sshd(8) does itself with a certificate whose principals a program tells it
    /// (AuthorizedPrincipalsCommand in sshd_config(5)).
    LeftToCaller,
}
