//! Which of the keys signed?

ghost use Rattle.std.specs.Prelude.{◌≡◌, ◌≢◌, ◌↔◌, ℕ, List, [], IfErr, IfOk, IsTrue, string_bytes};
ghost use Rattle.ssh_key.specs.authorized_keys.OpenSshEntries.{openssh_entry_of};
ghost use Rattle.ssh_key.specs.entries.Answers.{ReadsEntry};
ghost use Rattle.ssh_key.specs.entries.Fields.{filled_lines};
ghost use Rattle.ssh_key.specs.entries.OpenSshLines.{IsAuthorizedLine};
ghost use Rattle.ssh_key.specs.model.Keys.{IsKey};
ghost use Rattle.ssh_key.specs.model.SignedMessages.{IsVerified};
ghost use Rattle.ssh_key.specs.sshsig.SshSignatures.{ssh_signature_of};
ghost use Rattle.ssh_key.specs.types.Error.TheVariants.{Memory};
ghost use Rattle.sshkey_examples.specs.Signers.{AnswersYesOrNo, FindsAmong, HasSignatureFault, IsSigner, JudgesEntry, JudgesLine, NamesSigner, NeedsMemory, PassesOver, SpelledBySome};

use ssh_key::authorized_keys::OpenSshEntry;
use ssh_key::laws::one_authorized_line;
use ssh_key::revocation::Revocations;
use ssh_key::{AuthorizedKeys, Error, RawVerifier, Result, SshSig};
use std::alloc::Global;

/// Returns the comment of the first deploy key that has signed the content, in that namespace
/// (git's is `git`), or `None` if no deploy key has: `Ok` alone is no yes.
///
/// `keys` is read as sshd(8) reads authorized_keys. A line that is no entry, one with options, or
/// one whose key `revocations` revokes, is passed over: no deploy key stands there. The comment is
/// what whoever wrote the line chose: several lines may have one, and a line without any gives an
/// empty text. So it names a signer only where the text is yours.
///
/// `signature` is what stands in the armour of `ssh-keygen -Y sign`, decoded. One by a security key
/// counts whatever its flags say, also where nobody touched it, as for ssh-keygen: the flags are
/// the fifth byte from the end of `Signature::as_bytes`, and the bit 0x01 says that somebody did.
/// One with reserved bytes counts for nobody: ssh-keygen verifies it as if these were empty. Unless
/// memory runs out, it fails exactly if the bytes spell no SSH signature, with the refusal of
/// `SshSig::from_bytes`. Where they spell none, `Memory` means that an allocation for what stands
/// in front of their fault failed: a length that they only state allocates nothing.
///
/// `revocations` is asked once, about the key that the signature names, before the verifier is.
pub fn find_signer<R: Revocations, V: RawVerifier>(
    alloc: Global,
    keys: &str,
    namespace: &str,
    content: &[u8],
    signature: &[u8],
    revocations: &R,
    verifier: &V,
) -> Result<Option<String>>
    ensures names { NamesSigner (V.accepts verifier.now) (R.revokes_key revocations.now) keys.now
        namespace.now content.now signature.now result }
    ensures fault { IfErr result (HasSignatureFault signature.now) }
    ensures memory { IfErr result (λ e. e ≡ Memory → NeedsMemory signature.now) }
{
    let signature = SshSig::from_bytes(alloc, signature)?;
    if revocations.is_key_revoked(alloc, signature.public_key())? {
        return Ok(None);
    }
    find_among(alloc, keys, namespace, content, &signature, verifier)
}

/// The comment of the first entry whose key has made the signature.
fn find_among<V: RawVerifier>(
    alloc: Global,
    keys: &str,
    namespace: &str,
    content: &[u8],
    signature: &SshSig,
    verifier: &V,
) -> Result<Option<String>>
    requires { SpelledBySome (ssh_signature_of signature.now) }
    ensures { FindsAmong (IsSigner (V.accepts verifier.now) namespace.now content.now
        (ssh_signature_of signature.now)) (filled_lines keys.now) result }
{
    for answer in AuthorizedKeys::openssh(alloc, keys) {
        let found = signer_at_answer(alloc, answer, namespace, content, signature, verifier)?;
        if found.is_some() {
            return Ok(found);
        }
    }
    Ok(None)
}

/// The comment in a line, if its key has made the signature.
fn signer_at_answer<V: RawVerifier>(
    alloc: Global,
    answer: Result<OpenSshEntry>,
    namespace: &str,
    content: &[u8],
    signature: &SshSig,
    verifier: &V,
) -> Result<Option<String>>
    requires { SpelledBySome (ssh_signature_of signature.now) }
    ensures { (line : List ℕ) → ReadsEntry openssh_entry_of IsAuthorizedLine line answer
        → JudgesLine (IsSigner (V.accepts verifier.now) namespace.now content.now
        (ssh_signature_of signature.now)) line result }
{
    one_authorized_line();
    match answer {
        Ok(entry) => signer_at_entry(alloc, &entry, namespace, content, signature, verifier),
        Err(error) => unless_memory(error),
    }
}

/// Nothing stands in a line that was rejected, unless an allocation failed.
fn unless_memory(error: Error) -> Result<Option<String>>
    ensures { PassesOver error result }
{
    if error.is_memory() {
        return Err(error);
    }
    Ok(None)
}

/// The comment of an entry without options, if its key has made the signature.
fn signer_at_entry<V: RawVerifier>(
    alloc: Global,
    entry: &OpenSshEntry,
    namespace: &str,
    content: &[u8],
    signature: &SshSig,
    verifier: &V,
) -> Result<Option<String>>
    requires { SpelledBySome (ssh_signature_of signature.now) }
    ensures { IsKey (openssh_entry_of entry.now).key → JudgesEntry (V.accepts verifier.now)
        namespace.now content.now (ssh_signature_of signature.now) (openssh_entry_of entry.now)
        result }
{
    if !entry.options().is_empty() {
        return Ok(None);
    }
    if has_reserved(signature) {
        return Ok(None);
    }
    let signed = has_signed(alloc, entry, namespace, content, signature, verifier)?;
    if !signed {
        return Ok(None);
    }
    let text = copy_text(alloc, entry.public_key().comment())?;
    Ok(Some(text))
}

/// Whether bytes stand in the field that is reserved, which ssh-keygen takes to be empty.
fn has_reserved(signature: &SshSig) -> bool
    ensures { IsTrue result ↔ ((ssh_signature_of signature.now).reserved ≢ []) }
{
    !signature.reserved().is_empty()
}

/// The text in memory of its own.
fn copy_text(alloc: Global, text: &str) -> Result<String>
    ensures value { IfOk result (λ copy. string_bytes copy ≡ text.now) }
    ensures memory { IfErr result (λ e. e ≡ Memory) }
{
    Ok(String::from_str(alloc, text)?)
}

/// Whether the entry's key has made the signature.
fn has_signed<V: RawVerifier>(
    alloc: Global,
    entry: &OpenSshEntry,
    namespace: &str,
    content: &[u8],
    signature: &SshSig,
    verifier: &V,
) -> Result<bool>
    requires { SpelledBySome (ssh_signature_of signature.now) }
    ensures answer { IsKey (openssh_entry_of entry.now).key → IfOk result (λ yes. IsTrue yes
        ↔ IsVerified (V.accepts verifier.now) (openssh_entry_of entry.now).key namespace.now
        content.now (ssh_signature_of signature.now)) }
    ensures memory { IfErr result (λ e. e ≡ Memory) }
{
    let key = entry.public_key();
    answer_of(key.verify(alloc, namespace, content, signature, verifier))
}

/// Yes or no, unless an allocation failed.
fn answer_of(verdict: Result<()>) -> Result<bool>
    ensures { AnswersYesOrNo verdict result }
{
    match verdict {
        Ok(()) => Ok(true),
        Err(error) if error.is_memory() => Err(error),
        Err(_) => Ok(false),
    }
}
