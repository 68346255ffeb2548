//! What holds of all lists: functions without code, each with a law as its contract.

ghost use Rattle.std.specs.Prelude.{◌≡◌, ◌||◌, ℕ, List, false};
ghost use Rattle.sshkey_krl.specs.Krls.{SpellsKrl};
ghost use Rattle.sshkey_krl.specs.Revocation.{CertificateIdentity, Krl, Section, begun, has_key, joined, lists, revokes, revokes_key, with_section};

/// No bytes spell two lists.
pub fn one_krl()
    ensures { (k l : Krl) (b : List ℕ) → SpellsKrl k b → SpellsKrl l b → k ≡ l }
{}

/// The sections of two lists, one after the other, revoke what either list does. So a section more
/// revokes no less.
pub fn joined_krls()
    ensures keys { (k l : Krl) (key : List ℕ) →
        revokes_key (joined k l) key ≡ (revokes_key k key || revokes_key l key) }
    ensures certificates { (k l : Krl) (key : List ℕ) (identity : CertificateIdentity) →
        revokes (joined k l) key identity ≡ (revokes k key identity || revokes l key identity) }
{}

/// A list without sections revokes nothing. One section more revokes what it has, beside what the
/// list did.
pub fn grown_krls()
    ensures nothing { (number date : ℕ) (comment key : List ℕ) (identity : CertificateIdentity) →
        revokes (begun number date comment) key identity ≡ false }
    ensures keys { (k : Krl) (s : Section) (key : List ℕ) →
        revokes_key (with_section k s) key ≡ (revokes_key k key || has_key key s) }
    ensures certificates { (k : Krl) (s : Section) (key : List ℕ) (identity : CertificateIdentity) →
        revokes (with_section k s) key identity
        ≡ (revokes k key identity
        || (has_key key s || (has_key identity.signer s || lists identity s))) }
{}
