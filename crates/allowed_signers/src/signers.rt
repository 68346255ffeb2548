//! Lines of allowed signers, and whether a signature counts.

ghost use Rattle.std.specs.Prelude.{◌≡◌, ◌↔◌, IfErr, IfOk, IsTrue, slice_index};
ghost use Rattle.sshkey_entries.specs.Entries.{hash_sign};
ghost use Rattle.sshkey_public.specs.PublicKeys.{public_of};
ghost use Rattle.sshkey_entries.specs.Patterns.{MatchesList};
ghost use Rattle.sshkey_keys.specs.Keys.{key_of};
ghost use Rattle.sshkey_model.specs.Keys.{IsKey};
ghost use Rattle.sshkey_sshsig.specs.SshSignatures.{ssh_signature_of};
ghost use Rattle.sshkey_base.specs.declared.error.Error.TheVariants.{Memory};
ghost use Rattle.openssh_limits.specs.Padding.{padding};
ghost use Rattle.allowed_signers.specs.AllowedSigners.{AllowsSigner, AnswersYesOrNo, Counts, HasEntryFor, HasSignature, HasSigned, IsAllowed, IsEntryFor, IsNo, IsRefusalFor, IsWhy, OkExactly, OptionsPermit, ReadsSignature, SpelledBySome, bare_entry};

use crate::line::{is_without, split_principals};
use crate::options::SignerOptions;
use openssh_limits::{Padding, openssh_reads_application};
use sshkey_authorized_keys::bytes_split_options;
use sshkey_base::{Error, Result};
use sshkey_entries::bytes::{skip_blanks, text_of};
use sshkey_entries::laws::one_authorized_line;
use sshkey_entries::{LetterCase, NonBlankByteLines, bytes_match_pattern_list, read_key_bytes};
use sshkey_keys::{KeyData, RawVerifier};
use sshkey_krl::Revocations;
use sshkey_public::PublicKey;
use sshkey_sshsig::SshSig;
use sshkey_sshsig::laws::{one_ssh_signature, signed_parts_fit};
use std::alloc::Global;

/// Why a signature does not count.
#[derive(Debug, Drop)]
pub enum SignerRefusal {
    /// The bytes are no SSH signature.
    NoSignature,
    /// The identity has no bytes.
    NoIdentity,
    /// No line lets its key sign for the identity, in the namespace and at the time.
    NotAllowed,
    /// Its key is revoked.
    Revoked,
    /// It is not the key's signature of the message in the namespace.
    NotVerified,
    /// Memory ran out.
    Memory,
}

/// Whether the bytes are a signature of the message, in the namespace, by a key that is not revoked
/// and that a line of `signers` lets sign for the identity at that time. The time is in seconds
/// since 1970. That is what `ssh-keygen -Y verify -r` asks (ssh-keygen(1), ALLOWED SIGNERS).
///
/// A line is a list of patterns, options or none, and a key, as in authorized_keys. It lets the key
/// sign if one of the patterns matches the identity and none that begins with a `!` does, and if
/// each option is one of these and stands there once: `namespaces="..."`, a list of patterns for
/// the namespace, and `valid-after="..."` and `valid-before="..."`, the first and the last second.
/// A time that no `Z` ends has to hold in every zone. A line with `cert-authority` lets certificates
/// sign, which are not read in a signature: it is passed over. So is each line in which something
/// else stands, as ssh-keygen does, one whose options are not UTF-8, a line in which a byte is 0,
/// and one whose list of patterns has a carriage return, or a double quote that does not enclose the list: ssh-keygen ends the line at
/// a zero byte, and an unquoted list at the others. And so is the line of a security key whose
/// application has a zero byte: ssh-keygen takes it for another key's, or rejects it, and no
/// verifier sees it.
///
/// `signature` is what stands in the armour of `ssh-keygen -Y sign`, decoded. `revocations` is
/// asked about its key: a list, `NoRevocations`, or what reading a list gave, whose `Err` revokes
/// each key.
///
/// Nobody has an identity of no bytes: `*` matches it, and ssh-keygen takes it.
///
/// Unless memory runs out, it is refused for the first of these that holds: `NoSignature`,
/// `NoIdentity`, `NotAllowed`, `Revoked`, `NotVerified`. Where the bytes are no signature, `Memory` means that an
/// allocation for what stands in front of their fault failed: a length that they only state
/// allocates nothing. One with reserved bytes is not verified. One by a security key counts
/// whatever its flags say, also where nobody touched it, as for ssh-keygen: the flags are the fifth
/// byte from the end of `Signature::as_bytes`, and the bit 0x01 says that somebody did. The verifier
/// is asked about an RSA signature with the zeros in front that its signer left out, as ssh-keygen
/// verifies it (`openssh_limits::Padding`). Keys that
/// ssh-keygen does not read are left to the verifier: RSA keys of fewer than 1,024 bits or more
/// than 16,384, keys with negative numbers, and points that are compressed or not on their curve.
pub fn verify<R: Revocations, V: RawVerifier>(
    alloc: Global,
    signers: &[u8],
    identity: &str,
    namespace: &str,
    message: &[u8],
    signature: &[u8],
    unix_timestamp: u64,
    revocations: &R,
    verifier: &V,
) -> std::result::Result<(), SignerRefusal>
    ensures exactly { OkExactly (HasSignature signature.now (Counts
        (padding (V.accepts verifier.now)) (R.revokes_key revocations.now) signers.now identity.now
        namespace.now message.now unix_timestamp)) result }
    ensures refused { IfErr result (IsWhy (padding (V.accepts verifier.now))
        (R.revokes_key revocations.now) signers.now identity.now namespace.now message.now
        unix_timestamp signature.now) }
{
    one_ssh_signature();
    let signature = read_signature(alloc, signature)?;
    if identity.is_empty() {
        return Err(SignerRefusal::NoIdentity);
    }
    let key = signature.public_key();
    let Ok(allowed) = is_allowed(alloc, signers, identity, namespace, unix_timestamp, key) else {
        return Err(SignerRefusal::Memory);
    };
    if !allowed {
        return Err(SignerRefusal::NotAllowed);
    }
    let Ok(revoked) = revocations.is_key_revoked(alloc, key) else {
        return Err(SignerRefusal::Memory);
    };
    if revoked {
        return Err(SignerRefusal::Revoked);
    }
    let padding = Padding { verifier };
    let Ok(signed) = has_signed(alloc, &signature, namespace, message, &padding) else {
        return Err(SignerRefusal::Memory);
    };
    if !signed {
        return Err(SignerRefusal::NotVerified);
    }
    Ok(())
}

/// The signature that the bytes spell.
fn read_signature(alloc: Global, bytes: &[u8]) -> std::result::Result<SshSig, SignerRefusal>
    ensures { ReadsSignature bytes.now result }
{
    match SshSig::from_bytes(alloc, bytes) {
        Ok(signature) => Ok(signature),
        Err(error) => Err(refusal_of(error)),
    }
}

/// Why bytes are no signature.
fn refusal_of(error: Error) -> SignerRefusal
    ensures { IsRefusalFor error result }
{
    if error.is_memory() {
        return SignerRefusal::Memory;
    }
    SignerRefusal::NoSignature
}

/// Whether the signature's own key has made it of the message in the namespace, with nothing
/// reserved.
fn has_signed<V: RawVerifier>(
    alloc: Global,
    signature: &SshSig,
    namespace: &str,
    message: &[u8],
    verifier: &V,
) -> Result<bool>
    requires { SpelledBySome (ssh_signature_of signature.now) }
    ensures answer { IfOk result (λ yes. IsTrue yes ↔ HasSigned (V.accepts verifier.now)
        namespace.now message.now (ssh_signature_of signature.now)) }
    ensures memory { IfErr result (λ e. e ≡ Memory) }
{
    signed_parts_fit();
    if !signature.reserved().is_empty() {
        return Ok(false);
    }
    if !is_for(signature, namespace) {
        return Ok(false);
    }
    let signed = signature.signed_bytes(alloc, message)?;
    let key = signature.public_key();
    answer_of(key.verify(alloc, &signed, signature.signature(), verifier))
}

/// Whether the signature is one in that namespace.
fn is_for(signature: &SshSig, namespace: &str) -> bool
    ensures { IsTrue result ↔ ((ssh_signature_of signature.now).namespace ≡ namespace.now) }
{
    signature.namespace() == namespace
}

/// Yes or no, unless an allocation failed.
fn answer_of(verdict: Result<()>) -> Result<bool>
    ensures { AnswersYesOrNo verdict result }
{
    match verdict {
        Ok(()) => Ok(true),
        Err(error) => no(error),
    }
}

/// No, unless an allocation failed.
fn no(error: Error) -> Result<bool>
    ensures { IsNo error result }
{
    if error.is_memory() {
        return Err(error);
    }
    Ok(false)
}

/// Whether a line lets the key sign for the identity.
fn is_allowed(
    alloc: Global,
    signers: &[u8],
    identity: &str,
    namespace: &str,
    unix_timestamp: u64,
    key: &KeyData,
) -> Result<bool>
    requires { IsKey (key_of key.now) }
    ensures answer { IfOk result (λ yes. IsTrue yes ↔ IsAllowed identity.now namespace.now
        unix_timestamp (key_of key.now) signers.now) }
    ensures memory { IfErr result (λ e. e ≡ Memory) }
{
    for line in NonBlankByteLines::new(signers) {
        let allowed = allows(alloc, line, identity, namespace, unix_timestamp, key)?;
        if allowed {
            return Ok(true);
        }
    }
    Ok(false)
}

/// Whether the line lets the key sign for the identity.
fn allows(
    alloc: Global,
    line: &[u8],
    identity: &str,
    namespace: &str,
    unix_timestamp: u64,
    key: &KeyData,
) -> Result<bool>
    requires { IsKey (key_of key.now) }
    ensures answer { IfOk result (λ yes. IsTrue yes ↔ AllowsSigner identity.now namespace.now
        unix_timestamp (key_of key.now) line.now) }
    ensures memory { IfErr result (λ e. e ≡ Memory) }
{
    if !is_without(0, line) {
        return Ok(false);
    }
    let Some((principals, rest)) = split_principals(line) else {
        return Ok(false);
    };
    if !list(principals, identity) {
        return Ok(false);
    }
    has_entry_for(alloc, rest, namespace, unix_timestamp, key)
}

/// Whether the patterns list the identity, letters in their own case.
fn list(principals: &[u8], identity: &str) -> bool
    ensures { IsTrue result ↔ MatchesList (λ c. c) principals.now identity.now }
{
    bytes_match_pattern_list(identity.as_bytes(), principals, LetterCase::Sensitive)
}

fn is_comment(text: &[u8]) -> bool
    ensures { IsTrue result ↔ (slice_index text.now 0 ≡ hash_sign) }
{
    matches!(text, [b'#', ..])
}

/// Whether the text spells an entry of that key whose options permit the namespace and the time.
fn has_entry_for(
    alloc: Global,
    text: &[u8],
    namespace: &str,
    unix_timestamp: u64,
    key: &KeyData,
) -> Result<bool>
    requires { IsKey (key_of key.now) }
    ensures answer { IfOk result (λ yes. IsTrue yes ↔ HasEntryFor namespace.now unix_timestamp
        (key_of key.now) text.now) }
    ensures memory { IfErr result (λ e. e ≡ Memory) }
{
    one_authorized_line();
    let fields = skip_blanks(text);
    if is_comment(fields) {
        return Ok(false);
    }
    let error = match read_key_bytes(alloc, fields) {
        Ok(found) => return is_entry_for(alloc, "", &found, namespace, unix_timestamp, key),
        Err(error) => error,
    };
    if error.is_memory() {
        return Err(error);
    }
    let Some((front, rest)) = bytes_split_options(fields) else {
        return Ok(false);
    };
    let Some(options) = text_of(front) else {
        return Ok(false);
    };
    match read_key_bytes(alloc, skip_blanks(rest)) {
        Ok(found) => is_entry_for(alloc, options, &found, namespace, unix_timestamp, key),
        Err(error) => no(error),
    }
}

/// Whether the key that was found is that one, whose application ssh-keygen reads, and the options
/// before it permit the namespace and the time.
fn is_entry_for(
    alloc: Global,
    options: &str,
    found: &PublicKey,
    namespace: &str,
    unix_timestamp: u64,
    key: &KeyData,
) -> Result<bool>
    requires { IsKey (key_of key.now) }
    ensures answer { IfOk result (λ yes. IsTrue yes ↔ IsEntryFor namespace.now unix_timestamp
        (key_of key.now) (bare_entry options.now (public_of found.now))) }
    ensures memory { IfErr result (λ e. e ≡ Memory) }
{
    if !key.is(found.key_data()) {
        return Ok(false);
    }
    if !openssh_reads_application(key) {
        return Ok(false);
    }
    options_permit(alloc, options, namespace, unix_timestamp)
}

/// Whether the options permit the namespace and the time.
fn options_permit(
    alloc: Global,
    options: &str,
    namespace: &str,
    unix_timestamp: u64,
) -> Result<bool>
    ensures answer { IfOk result (λ yes. IsTrue yes ↔ OptionsPermit namespace.now unix_timestamp
        options.now) }
    ensures memory { IfErr result (λ e. e ≡ Memory) }
{
    let found = SignerOptions::read(alloc, options)?;
    match found {
        Some(said) => Ok(said.permit(namespace, unix_timestamp)),
        None => Ok(false),
    }
}
