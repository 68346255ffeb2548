//! Kinds of keys that OpenSSH reads or read, and that are none here.

ghost use Rattle.std.specs.Prelude.{◌≡◌};
ghost use Rattle.sshkey_entry_calls.specs.LaterKinds.{begins_with_later_kind};

/// Whether the bytes begin with the name of such a kind, of its certificates or of its signatures,
/// as a string.
pub fn begins_with_later_kind(bytes: &[u8]) -> bool
    ensures { result ≡ begins_with_later_kind bytes.now }
{
    bytes.starts_with(b"\0\0\0\x13ssh-mldsa44-ed25519")
        || bytes.starts_with(b"\0\0\0\x18ssh-mldsa44-ed25519-cert")
        || bytes.starts_with(b"\0\0\0\x2bwebauthn-sk-ecdsa-sha2-nistp256@openssh.com")
        || bytes.starts_with(b"\0\0\0\x34webauthn-sk-ecdsa-sha2-nistp256-cert-v01@openssh.com")
        || bytes.starts_with(b"\0\0\0\x14ssh-xmss@openssh.com")
        || bytes.starts_with(b"\0\0\0\x1dssh-xmss-cert-v01@openssh.com")
}
