//! A verifier's question: is this blob a signature of the message under the key?

ghost use Rattle.std.specs.Prelude.{◌≡◌, ◌↔◌, IsTrue, IfErr, IfOk};
ghost use Rattle.ssh_key.specs.keys.Keys.{key_of};
ghost use Rattle.ssh_key.specs.model.Signatures.{SpellsSignature};
ghost use Rattle.ssh_key.specs.base.Judgements.{AcceptsExactly, SpellsSome};
ghost use Rattle.ssh_key.specs.types.Error.TheVariants.{Memory};
ghost use Rattle.sshkey_examples.specs.Signed.{AnswersYesOrNo, HasFault, NeedsMemory, SpellsAcceptedSignature};

use ssh_key::laws::one_signature;
use ssh_key::public::KeyData;
use ssh_key::{Error, RawVerifier, Result, Signature};
use std::alloc::Global;

/// Returns whether the blob spells a signature of the message that the verifier accepts under the
/// key. `Ok(false)` is a no: never ask `is_ok` alone.
///
/// Unless memory runs out, it fails exactly if the blob spells no signature, with its first fault
/// from the left. Where it spells none, `Memory` means that an allocation for what stands in front
/// of that fault failed. A signature by an algorithm that does not go with the key is no signature
/// of the message, and the verifier is not asked.
pub fn is_signed<V: RawVerifier>(
    alloc: Global,
    key: &KeyData,
    message: &[u8],
    blob: &[u8],
    verifier: &V,
) -> Result<bool>
    ensures answer { IfOk result (λ yes. IsTrue yes
        ↔ SpellsAcceptedSignature (V.accepts verifier.now) (key_of key.now) message.now blob.now) }
    ensures readable { AcceptsExactly (SpellsSome SpellsSignature blob.now) result }
    ensures fault { IfErr result (HasFault blob.now) }
    ensures memory { IfErr result (λ e. e ≡ Memory → NeedsMemory blob.now) }
{
    one_signature();
    let signature = Signature::from_bytes(alloc, blob)?;
    answer_of(key.verify(alloc, message, &signature, verifier))
}

/// Yes or no, unless an allocation failed.
fn answer_of(verdict: Result<()>) -> Result<bool>
    ensures { AnswersYesOrNo verdict result }
{
    match verdict {
        Ok(()) => Ok(true),
        Err(error) if error.is_memory() => Err(error),
        Err(_) => Ok(false),
    }
}
