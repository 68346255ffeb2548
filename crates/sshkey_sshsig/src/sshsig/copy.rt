//! A copy of an SSH signature.

ghost use Rattle.std.specs.Prelude.{◌≡◌, IfOk, IfErr};
ghost use Rattle.sshkey_keys.specs.Keys.{stored_algorithm};
ghost use Rattle.sshkey_sshsig.specs.SshSignatures.{ssh_signature_of, signer_of};

use super::SshSig;
use sshkey_base::{Error, Result};
use std::alloc::Global;

impl SshSig {
    /// A copy of the signature. The copy of an opaque key keeps the algorithm that is stored beside
    /// its bytes. Fails only when out of memory.
    pub fn try_clone(&self, alloc: Global) -> Result<SshSig>
        ensures same { IfOk result (λ f. ssh_signature_of f ≡ ssh_signature_of self.now) }
        ensures algorithm { IfOk result
            (λ f. stored_algorithm (signer_of f) ≡ stored_algorithm (signer_of self.now)) }
        ensures refused { IfErr result (λ e. e ≡ Error.Memory) }
    {
        let namespace = self.namespace.try_clone(alloc)?;
        let reserved = self.reserved.try_clone(alloc)?;
        let signature = self.signature.try_clone(alloc)?;
        Ok(SshSig {
            version: self.version,
            public_key: self.public_key.try_clone(alloc)?,
            namespace,
            reserved,
            hash_alg: self.hash_alg,
            signature,
        })
    }
}
