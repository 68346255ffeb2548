//! What has to be verified of a signature under a key.

ghost use Rattle.sshkey_calls.specs.Signatures.{TellsSignatureQuestion};

use sshkey_calls::Question;
use sshkey_calls::number::error_status;
use sshkey_calls::signature::ask_under;
use sshkey_keys_ref::KeyDataRef;
use std::alloc::Global;

/// What has to be verified of the signature that all its bytes spell (RFC 4253, section 6.6), as
/// one of the message under the key that all its bytes spell: as an agent gives it, or a client at
/// a login.
///
/// Returns 0 with the question in the room, 2 where the room is too short for it, 1 if memory ran
/// out, from 10 to 29 the fault of bytes that are no key, or else of bytes that are no signature,
/// and 40 where key and signature do not go together: such a signature is not valid. Where the
/// question is answered, the signature is valid exactly if the verification says yes. Memory is
/// taken only where both are spelled.
#[unsafe(no_mangle)]
pub extern "C" fn raf_signature_question(
    alloc: Global,
    key: &[u8],
    message: &[u8],
    signature: &[u8],
    room: &mut [u8],
    answer: &mut Question,
) -> u32
    ensures { TellsSignatureQuestion key.now message.now signature.now
        result answer.old answer.new room.old room.new }
{
    match KeyDataRef::from_bytes(key) {
        Ok(signer) => ask_under(alloc, &signer, message, signature, room, answer),
        Err(error) => error_status(error),
    }
}
