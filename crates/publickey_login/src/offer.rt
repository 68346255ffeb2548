//! What a client offers.

/// What a client offers in its request for a login (RFC 4252, section 7).
#[derive(Debug, Clone, Copy)]
pub struct Offer<'a> {
    /// The name of the user to log in as.
    pub user: &'a str,
    /// The name of the algorithm, as the request has it: `rsa-sha2-512` also for an RSA key. `None`
    /// only where somebody else has verified the signature, and does not tell it.
    pub algorithm: Option<&'a [u8]>,
    /// The blob of a key or of a certificate, as it was sent.
    pub blob: &'a [u8],
}
