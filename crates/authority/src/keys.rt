//! Which keys an authority certifies.

ghost use Rattle.std.specs.Prelude.{◌≡◌, ◌↔◌, IsTrue};
ghost use Rattle.ssh_key.specs.keys.Keys.{key_of};
ghost use Rattle.authority.specs.Issuance.{IsCertifiable, all, is_among};

use openssh_limits::openssh_accepts_key;
use ssh_key::public::KeyData;

/// How many bits an RSA key has to have.
const LEAST_CERTIFIED_BITS: u32 = 2048;

/// The kinds of key that may be certified. DSA is none of them: OpenSSH lets nobody in by it.
#[derive(Debug, Drop)]
pub struct KeyKinds {
    /// `ecdsa-sha2-nistp256`, `-nistp384` and `-nistp521`.
    pub ecdsa: bool,
    /// `ssh-ed25519`.
    pub ed25519: bool,
    /// `ssh-rsa`.
    pub rsa: bool,
    /// `sk-ecdsa-sha2-nistp256@openssh.com`.
    pub sk_ecdsa: bool,
    /// `sk-ssh-ed25519@openssh.com`.
    pub sk_ed25519: bool,
}

impl KeyKinds {
    /// Returns all kinds.
    pub fn all() -> KeyKinds
        ensures { result ≡ all }
    {
        KeyKinds {
            ecdsa: true,
            ed25519: true,
            rsa: true,
            sk_ecdsa: true,
            sk_ed25519: true,
        }
    }

    /// Whether the key may be certified.
    pub(crate) fn allow(&self, key: &KeyData) -> bool
        ensures { IsTrue result ↔ IsCertifiable self.now (key_of key.now) }
    {
        self.are_of(key) && openssh_accepts_key(key, LEAST_CERTIFIED_BITS)
    }

    /// Whether the key is of one of the kinds.
    fn are_of(&self, key: &KeyData) -> bool
        ensures { result ≡ is_among self.now (key_of key.now) }
    {
        match key {
            KeyData::Ecdsa(_) => self.ecdsa,
            KeyData::Ed25519(_) => self.ed25519,
            KeyData::Rsa(_) => self.rsa,
            KeyData::SkEcdsaSha2NistP256(_) => self.sk_ecdsa,
            KeyData::SkEd25519(_) => self.sk_ed25519,
            KeyData::Dsa(_) | KeyData::Other(_) => false,
        }
    }
}
