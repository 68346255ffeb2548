//! The names of the algorithms that have fixed ones, also in certificates.

/// DSA (RFC 4253, section 6.6).
pub const SSH_DSS: &str = "ssh-dss";

/// ECDSA over NIST P-256 (RFC 5656, section 6.2).
pub const ECDSA_SHA2_NISTP256: &str = "ecdsa-sha2-nistp256";

/// ECDSA over NIST P-384 (RFC 5656, section 6.2).
pub const ECDSA_SHA2_NISTP384: &str = "ecdsa-sha2-nistp384";

/// ECDSA over NIST P-521 (RFC 5656, section 6.2).
pub const ECDSA_SHA2_NISTP521: &str = "ecdsa-sha2-nistp521";

/// Ed25519 (RFC 8709, section 3).
pub const SSH_ED25519: &str = "ssh-ed25519";

/// RSA keys (RFC 4253, section 6.6).
pub const SSH_RSA: &str = "ssh-rsa";

/// RSA signatures with SHA-256 (RFC 8332, section 3).
pub const RSA_SHA2_256: &str = "rsa-sha2-256";

/// RSA signatures with SHA-512 (RFC 8332, section 3).
pub const RSA_SHA2_512: &str = "rsa-sha2-512";

/// ECDSA over NIST P-256 by a security key (PROTOCOL.u2f).
pub const SK_ECDSA_SHA2_NISTP256: &str = "sk-ecdsa-sha2-nistp256@openssh.com";

/// Ed25519 by a security key (PROTOCOL.u2f).
pub const SK_SSH_ED25519: &str = "sk-ssh-ed25519@openssh.com";

/// DSA, in a certificate (PROTOCOL.certkeys).
pub const SSH_DSS_CERT: &str = "ssh-dss-cert-v01@openssh.com";

/// ECDSA over NIST P-256, in a certificate (PROTOCOL.certkeys).
pub const ECDSA_SHA2_NISTP256_CERT: &str = "ecdsa-sha2-nistp256-cert-v01@openssh.com";

/// ECDSA over NIST P-384, in a certificate (PROTOCOL.certkeys).
pub const ECDSA_SHA2_NISTP384_CERT: &str = "ecdsa-sha2-nistp384-cert-v01@openssh.com";

/// ECDSA over NIST P-521, in a certificate (PROTOCOL.certkeys).
pub const ECDSA_SHA2_NISTP521_CERT: &str = "ecdsa-sha2-nistp521-cert-v01@openssh.com";

/// Ed25519, in a certificate (PROTOCOL.certkeys).
pub const SSH_ED25519_CERT: &str = "ssh-ed25519-cert-v01@openssh.com";

/// RSA keys, in a certificate (PROTOCOL.certkeys).
pub const SSH_RSA_CERT: &str = "ssh-rsa-cert-v01@openssh.com";

/// ECDSA over NIST P-256 by a security key, in a certificate (PROTOCOL.certkeys).
pub const SK_ECDSA_SHA2_NISTP256_CERT: &str = "sk-ecdsa-sha2-nistp256-cert-v01@openssh.com";

/// Ed25519 by a security key, in a certificate (PROTOCOL.certkeys).
pub const SK_SSH_ED25519_CERT: &str = "sk-ssh-ed25519-cert-v01@openssh.com";
