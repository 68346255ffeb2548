//! SSH signatures of messages and files (OpenSSH, PROTOCOL.sshsig).

ghost use Rattle.std.specs.Prelude.{◌<◌, length};

mod copy;
mod fields;
mod part;
mod sign;
mod signed_data;
mod wire;

use sshkey_base::{Bytes, Error, HashAlg, Result, Text};
use sshkey_keys::{KeyData, Signature};
use std::alloc::Global;

/// A signature of a message in a namespace, with the key that made it (PROTOCOL.sshsig).
///
/// The signature is not over the message but over the namespace, the reserved bytes, the hash's
/// name and the digest of the message, after `SSHSIG`. The namespace is not empty, and the version
/// is 0 or 1.
///
/// ```rust
/// // as in crates/sshkey_examples/src/signer.rt
/// let signature = SshSig::from_bytes(alloc, signature)?;
/// let key = entry.public_key();
/// answer_of(key.verify(alloc, namespace, content, signature, verifier))
/// ```
#[derive(Debug, PartialEq, Eq)]
pub struct SshSig {
    version: u32,
    public_key: KeyData,
    namespace: Text,
    reserved: Bytes,
    hash_alg: HashAlg,
    signature: Signature,
    pub ghost read_version: { version < 2 },
    pub ghost some_namespace: { 0 < length namespace },
}

impl Drop for SshSig {
    fn drop(self) {
        let SshSig {
            version: _,
            public_key: _,
            namespace: _,
            reserved: _,
            hash_alg: _,
            signature: _,
        } = self;
    }
}

impl SshSig {
    ghost use Rattle.std.specs.Prelude.{◌≡◌, ◌↔◌, [], IfOk, IfErr, IsErr, string_bytes};
    ghost use Rattle.sshkey_base.specs.Names.{hash_of};
    ghost use Rattle.sshkey_base.specs.declared.error.Error.TheVariants as wide;
    ghost use Rattle.sshkey_keys.specs.Keys.{key_of};
    ghost use Rattle.sshkey_keys.specs.Signatures.{signature_of};
    ghost use Rattle.sshkey_model.specs.SignedMessages.{made_by};
    ghost use Rattle.sshkey_sshsig.specs.SshSignatures.{ssh_signature_of, signer_of};

    /// 1: the version of signatures that are made here, and the greatest that is read. One that was
    /// read with version 0 is written with it.
    pub const VERSION: u32 = 1;

    /// The signature in that namespace by that key, with nothing reserved. Does not allocate.
    ///
    /// Fails with `Namespace` exactly if the namespace is empty.
    pub fn new(
        alloc: Global,
        public_key: KeyData,
        namespace: String,
        hash_alg: HashAlg,
        signature: Signature,
    ) -> Result<SshSig>
        ensures value { IfOk result (λ f. ssh_signature_of f ≡ made_by (key_of public_key)
            (string_bytes namespace) (hash_of hash_alg) (signature_of signature)) }
        ensures key { IfOk result (λ f. signer_of f ≡ public_key) }
        ensures empty { IsErr result ↔ (string_bytes namespace ≡ []) }
        ensures refused { IfErr result (λ e. e ≡ wide.Namespace) }
    {
        if namespace.is_empty() {
            return Err(Error::Namespace);
        }
        Ok(SshSig {
            version: SshSig::VERSION,
            public_key,
            namespace: Text::new(namespace),
            reserved: Bytes::new(Vec::new(alloc)),
            hash_alg,
            signature,
        })
    }
}
