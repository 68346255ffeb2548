//! Key revocation lists and revocation files: which keys and certificates no longer count
//! (PROTOCOL.krl; sshd_config(5), RevokedKeys).

pub use sshkey_krl::{Krl, KrlRef, NoRevocations, Revocations};
pub use sshkey_revoked_keys::RevokedKeys;
