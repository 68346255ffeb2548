//! What a client signs for a login by public key (RFC 4252, section 7).

mod part;
mod wire;

/// What a client signs for a login by public key (RFC 4252, section 7): the request that it sends,
/// with the identifier of the session before it. The signature is over these bytes, and no others.
///
/// With a host key the method is OpenSSH's `publickey-hostbound-v00@openssh.com`, without one
/// `publickey`.
#[derive(Clone, Copy, Debug)]
pub struct UserauthRequest<'a> {
    /// The identifier of the session: the exchange hash of the first key exchange
    /// (RFC 4253, section 7.2). The server's own, and nothing that a client sent.
    pub session_id: &'a [u8],
    /// The name of the user to log in as.
    pub user: &'a [u8],
    /// The name of the service that starts after the login: `ssh-connection`.
    pub service: &'a [u8],
    /// The name of the public key's algorithm, which says how the client signs: `rsa-sha2-512`
    /// also for an RSA key (RFC 8332), and for a certificate the name with `-cert-v01`.
    pub algorithm: &'a [u8],
    /// The blob of the public key or of the certificate.
    pub public_key: &'a [u8],
    /// The blob of the server's host key, where the method has one. The server's own, and nothing
    /// that a client sent: a signature for another host is none for this one.
    pub host_key: Option<&'a [u8]>,
}
