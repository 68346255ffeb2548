//! By what a host that shows a certificate is known.

/// By what a host that shows a certificate is known.
#[derive(Debug, Clone, Copy)]
pub enum KnownBy {
    /// By its authority: the certificate is valid for the host.
    Authority,
    /// By the certified key, as if no authority had signed it: the certificate is not valid for the
    /// host, or known_hosts has no such authority of it.
    CertifiedKey,
}
