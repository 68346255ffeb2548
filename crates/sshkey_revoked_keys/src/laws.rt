//! What holds of all revocation files: functions without code, each with a law as its contract.

ghost use Rattle.std.specs.Prelude.{◌≡◌, ◌↔◌, ◌⊎◌, ℕ, IsTrue, List};
ghost use Rattle.sshkey_krl.specs.Revocation.{CertificateIdentity};
ghost use Rattle.sshkey_revoked_keys.specs.RevokedKeys.{AreKeys, HasLineOf, revokes, revokes_key, RevokesKey};
ghost use Rattle.sshkey_revoked_keys.specs.declared.revoked_keys.RevokedKeys.{RevokedKeys};

/// A line revokes one key at most.
pub fn one_revoked_key()
    ensures { (line a b : List ℕ) → RevokesKey line a → RevokesKey line b → a ≡ b }
{}

/// A text revokes a key exactly if one of its lines does, and a certificate exactly if one does its
/// key or the key that signed it.
pub fn lines_revoke()
    ensures keys { (text key : List ℕ) (file : RevokedKeys) → AreKeys text file →
        IsTrue (revokes_key file key) ↔ HasLineOf text key }
    ensures certificates { (text key : List ℕ) (identity : CertificateIdentity)
        (file : RevokedKeys) → AreKeys text file →
        IsTrue (revokes file key identity) ↔ (HasLineOf text key ⊎ HasLineOf text identity.signer) }
{}
