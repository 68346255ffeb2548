//! Public keys as slices of their parts.

ghost use Rattle.std.specs.Prelude.{Option};
ghost use Rattle.sshkey_base.specs.Names.{algorithm_of};
ghost use Rattle.sshkey_keys.specs.Keys.{key_of};
ghost use Rattle.sshkey_model.specs.Names as model;
ghost use Rattle.sshkey_keys_ref.specs.KeyBytes.{named_of};
ghost use Rattle.sshkey_keys_ref.specs.Keys.{HoldsBody, HoldsKey, Means};
ghost use Rattle.sshkey_keys_ref.specs.Taking.{Finds};

use crate::kinds::{DsaRef, EcdsaRef, Ed25519Ref, RsaRef, SkEcdsaRef, SkEd25519Ref};
use crate::leaves::MpintRef;
use crate::name_ref::{NameRef, take_name};
use sshkey_base::Algorithm;
use sshkey_keys::KeyData;
use sshkey_kinds::{EcdsaPublicKey, Ed25519PublicKey};
use sshkey_terms::ReadFrom;

/// A public key by its kind, as slices of its parts. It does not allocate.
#[derive(Clone, Copy)]
pub enum KeyRef<'a> {
    /// A DSA key.
    Dsa(DsaRef<'a>),
    /// An ECDSA key.
    Ecdsa(EcdsaPublicKey),
    /// An Ed25519 key.
    Ed25519(Ed25519PublicKey),
    /// An RSA key.
    Rsa(RsaRef<'a>),
    /// A P-256 key that a security key holds.
    SkEcdsa(SkEcdsaRef<'a>),
    /// An Ed25519 key that a security key holds.
    SkEd25519(SkEd25519Ref<'a>),
    /// A key under a private-use name.
    Other,
}

/// The parts of the key. Does not allocate.
impl<'a> From<&'a KeyData> for KeyRef<'a> {
    ghost from_gives = { λ key parts. Means parts (key_of key.now) };

    fn from(key: &'a KeyData) -> KeyRef<'a> {
        match key {
            KeyData::Dsa(key) => KeyRef::Dsa(DsaRef {
                p: MpintRef(key.p.as_bytes()),
                q: MpintRef(key.q.as_bytes()),
                g: MpintRef(key.g.as_bytes()),
                y: MpintRef(key.y.as_bytes()),
            }),
            KeyData::Ecdsa(key) => KeyRef::Ecdsa(*key),
            KeyData::Ed25519(key) => KeyRef::Ed25519(*key),
            KeyData::Rsa(key) => KeyRef::Rsa(RsaRef {
                e: MpintRef(key.e.as_bytes()),
                n: MpintRef(key.n.as_bytes()),
            }),
            KeyData::SkEcdsaSha2NistP256(key) => KeyRef::SkEcdsa(SkEcdsaRef {
                key: *key.ec_point(),
                application: key.application(),
            }),
            KeyData::SkEd25519(key) => KeyRef::SkEd25519(SkEd25519Ref {
                key: key.public_key().0,
                application: key.application(),
            }),
            KeyData::Other(_) => KeyRef::Other,
        }
    }
}

/// The key that the bytes spell. Of other bytes nothing is said.
pub(crate) fn key_in(bytes: &[u8]) -> KeyRef<'_>
    ensures { HoldsKey bytes.now result }
{
    let mut rest = bytes;
    match take_name(&mut rest) {
        Ok(name) => body_in(&name, rest),
        Err(_) => KeyRef::Other,
    }
}

/// The key whose body stands after that name.
fn body_in<'a>(name: &NameRef<'_>, bytes: &'a [u8]) -> KeyRef<'a>
    ensures { HoldsBody (named_of name.now) bytes.now result }
{
    match name {
        NameRef::Fixed(algorithm) => kind_in(algorithm, bytes),
        NameRef::Other(_) => KeyRef::Other,
    }
}

/// The key of that algorithm whose body it is.
fn kind_in<'a>(algorithm: &Algorithm, bytes: &'a [u8]) -> KeyRef<'a>
    ensures { HoldsBody (algorithm_of algorithm.now) bytes.now result }
{
    match algorithm {
        Algorithm::Dsa => dsa_in(bytes),
        Algorithm::Ecdsa { curve: _ } => ecdsa_in(bytes),
        Algorithm::Ed25519 => ed25519_in(bytes),
        Algorithm::Rsa { hash: _ } => rsa_in(bytes),
        Algorithm::SkEcdsaSha2NistP256 => sk_ecdsa_in(bytes),
        Algorithm::SkEd25519 => sk_ed25519_in(bytes),
        Algorithm::Other(_) => KeyRef::Other,
    }
}

/// The DSA key whose body it is.
fn dsa_in<'a>(bytes: &'a [u8]) -> KeyRef<'a>
    ensures { HoldsBody model.Dsa bytes.now result }
{
    match first::<DsaRef<'a>>(bytes) {
        Some(key) => KeyRef::Dsa(key),
        None => KeyRef::Other,
    }
}

/// The RSA key whose body it is, whatever hash its name has.
fn rsa_in<'a>(bytes: &'a [u8]) -> KeyRef<'a>
    ensures { (hash : Option model.Hash) → HoldsBody (model.Rsa hash) bytes.now result }
{
    match first::<RsaRef<'a>>(bytes) {
        Some(key) => KeyRef::Rsa(key),
        None => KeyRef::Other,
    }
}

/// The ECDSA key whose body it is, of any curve.
fn ecdsa_in(bytes: &[u8]) -> KeyRef<'_>
    ensures { (c : model.Curve) → HoldsBody (model.Ecdsa c) bytes.now result }
{
    match first::<EcdsaRef>(bytes) {
        Some(key) => KeyRef::Ecdsa(key.0),
        None => KeyRef::Other,
    }
}

/// The Ed25519 key whose body it is.
fn ed25519_in(bytes: &[u8]) -> KeyRef<'_>
    ensures { HoldsBody model.Ed25519 bytes.now result }
{
    match first::<Ed25519Ref>(bytes) {
        Some(key) => KeyRef::Ed25519(key.0),
        None => KeyRef::Other,
    }
}

/// The P-256 key of a security key whose body it is.
fn sk_ecdsa_in<'a>(bytes: &'a [u8]) -> KeyRef<'a>
    ensures { HoldsBody model.SkEcdsa bytes.now result }
{
    match first::<SkEcdsaRef<'a>>(bytes) {
        Some(key) => KeyRef::SkEcdsa(key),
        None => KeyRef::Other,
    }
}

/// The Ed25519 key of a security key whose body it is.
fn sk_ed25519_in<'a>(bytes: &'a [u8]) -> KeyRef<'a>
    ensures { HoldsBody model.SkEd25519 bytes.now result }
{
    match first::<SkEd25519Ref<'a>>(bytes) {
        Some(key) => KeyRef::SkEd25519(key),
        None => KeyRef::Other,
    }
}

/// The value at the front; `None` where there is none.
fn first<'a, T: ReadFrom<&'a [u8]> + Drop>(bytes: &'a [u8]) -> Option<T>
    ensures { Finds T.means T.format.read bytes.now result }
{
    let mut rest = bytes;
    T::read_from(&mut rest).ok()
}
