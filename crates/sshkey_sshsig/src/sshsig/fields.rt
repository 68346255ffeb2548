//! The parts of an SSH signature.

ghost use Rattle.std.specs.Prelude.{◌≡◌};
ghost use Rattle.sshkey_base.specs.Names.{algorithm_of, hash_of};
ghost use Rattle.sshkey_sshsig.specs.SshSignatures.{ssh_signature_of, signer_of, given_of};

use super::SshSig;
use sshkey_base::{Algorithm, HashAlg};
use sshkey_keys::{KeyData, Signature};

impl SshSig {
    /// The algorithm of the signature.
    pub fn algorithm(&self) -> &Algorithm
        ensures { algorithm_of result.now ≡ (ssh_signature_of self.now).signature.algorithm }
    {
        self.signature.algorithm()
    }

    /// The version, 0 or 1.
    pub fn version(&self) -> u32
        ensures { result ≡ (ssh_signature_of self.now).version }
    {
        self.version
    }

    /// The key that it is by.
    pub fn public_key(&self) -> &KeyData
        ensures { result.now ≡ signer_of self.now }
    {
        &self.public_key
    }

    /// The namespace, which is not empty.
    pub fn namespace(&self) -> &str
        ensures { result.now ≡ (ssh_signature_of self.now).namespace }
    {
        self.namespace.as_str()
    }

    /// The reserved bytes, which are signed too.
    pub fn reserved(&self) -> &[u8]
        ensures { result.now ≡ (ssh_signature_of self.now).reserved }
    {
        self.reserved.as_slice()
    }

    /// The hash by which the message is digested.
    pub fn hash_alg(&self) -> HashAlg
        ensures { hash_of result ≡ (ssh_signature_of self.now).hash }
    {
        self.hash_alg
    }

    /// The signature.
    pub fn signature(&self) -> &Signature
        ensures { result.now ≡ given_of self.now }
    {
        &self.signature
    }

    /// The bytes of the signature.
    pub fn signature_bytes(&self) -> &[u8]
        ensures { result.now ≡ (ssh_signature_of self.now).signature.blob }
    {
        self.signature.as_bytes()
    }
}
