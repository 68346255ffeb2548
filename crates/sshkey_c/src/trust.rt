//! Authorities of lines, keys whose signatures count, files that may be believed, and lines that
//! may be for a key.

ghost use Rattle.std.specs.Prelude.{◌≡◌};
ghost use Rattle.sshkey_model.specs.Keys.{SpellsKey, key_data_at};
ghost use Rattle.sshkey_model.specs.Certificates.{certificate_at, SpellsCertificate};
ghost use Rattle.sshkey_keys.specs.Keys.{key_of};
ghost use Rattle.sshkey_calls.specs.Rooms.{TellsOf};
ghost use Rattle.sshkey_entry_calls.specs.Authorities.{TellsAuthority, TellsUserAuthority};
ghost use Rattle.sshkey_entry_calls.specs.Trust.{is_own, mode_number, verifier_number};
ghost use Rattle.sshkey_c.specs.Verdicts.{TellsLine};

use sshkey_calls::Sha256Digest;
use sshkey_calls::number::{DONE, END, MEMORY, TEXT, error_status};
use sshkey_cert_ref::CertificateRef;
use sshkey_entries::bytes::{skip_blanks, split_blank};
use sshkey_entry_calls::authorities::{has_user, key_fields, tell_fields};
use sshkey_entry_calls::verifiers::verifier_number;
use sshkey_keys::KeyData;
use sshkey_keys_ref::KeyDataRef;
use std::alloc::Global;
use std::str;

/// Somebody else than root and the user may write.
const UNSAFE_MODE: u32 = 62;

/// By these bits of a mode group and others may write (chmod(2)).
const OTHERS_WRITE: u32 = 0o022;

/// The SHA-256 fingerprint of the key in a line of a file of authorities, as that of sshd's
/// TrustedUserCAKeys (sshd_config(5)): after spaces and tabs the name of its algorithm and its
/// Base64. What follows is a comment, and decides nothing.
///
/// Returns 0 with it, 61 for a key of a later kind (`raf_is_later_key_line`), which signs nothing
/// that is read, 1 if memory ran out, 4 where these two fields are not UTF-8, and else from 10 to
/// 29 a fault of a line that is no key's: refuse the file then. With every number but 0 the answer
/// stays as it was. Memory is taken only for the key.
#[unsafe(no_mangle)]
pub extern "C" fn raf_authority(alloc: Global, line: &[u8], answer: &mut Sha256Digest) -> u32
    ensures { TellsAuthority line.now result answer.old.bytes answer.new.bytes }
{
    match str::from_utf8(key_fields(skip_blanks(line))) {
        Ok(fields) => tell_fields(alloc, fields, answer),
        Err(_) => TEXT,
    }
}

/// The same of a line of a file that says which authority may sign for whom: names of users, with
/// commas between, stand before the key.
///
/// Returns 3 for a line without the user's name, whatever follows its names, and else what
/// `raf_authority` does. A name is compared byte by byte, and nobody has the name of no bytes.
#[unsafe(no_mangle)]
pub extern "C" fn raf_user_authority(
    alloc: Global,
    line: &[u8],
    user: &[u8],
    answer: &mut Sha256Digest,
) -> u32
    ensures { TellsUserAuthority line.now user.now result answer.old.bytes answer.new.bytes }
{
    let (list, rest) = split_blank(skip_blanks(line));
    if !has_user(list, user) {
        return END;
    }
    raf_authority(alloc, rest, answer)
}

/// Whether a verifier may say yes to a signature under the key that all the bytes spell: OpenSSH
/// lets somebody in by it (`openssh_limits::openssh_accepts_key`), and a key of RSA has 2,048 bits
/// or more, where OpenSSH is content with 1,024. So it is no DSA key, no number in it is zero,
/// negative or longer than 16,384 bits, and a point begins with 04. Does not allocate.
///
/// Returns 0 if it may, 59 if not, and from 10 to 29 the fault of bytes that are no key.
#[unsafe(no_mangle)]
pub extern "C" fn raf_may_verify(key: &[u8]) -> u32
    ensures { TellsOf SpellsKey key_data_at key.now (λ k. result ≡ verifier_number k) result
        (Unit {0}) }
{
    match KeyDataRef::from_bytes(key) {
        Ok(read) => verifier_number(&read),
        Err(error) => error_status(error),
    }
}

/// Whether a file or a folder may be believed about a user, as sshd(8) has it in StrictModes
/// (sshd_config(5)): root or the user owns it, and nobody else can write there. By 0, root's
/// number, root alone may own it. The number of the owner and the mode are those of stat(2).
///
/// Returns 0 if it may, and else 62. Does not allocate.
#[unsafe(no_mangle)]
pub extern "C" fn raf_check_safe_mode(owner: u64, user: u64, mode: u32) -> u32
    ensures { result ≡ mode_number owner user mode }
{
    if is_own(owner, user) && mode & OTHERS_WRITE == 0 {
        return DONE;
    }
    UNSAFE_MODE
}

/// Whether sshd(8) may take a line of authorized_keys for one of the key that all the bytes spell
/// (`user_keys::line_may_name_key`). Nothing is asked of the bytes of the line.
///
/// Returns 0 if it may, 3 if it surely does not, 1 if memory ran out, and from 10 to 29 the fault
/// of bytes that are no key. Memory is taken for a key of RSA or DSA, a security key and one under
/// a private-use name.
#[unsafe(no_mangle)]
pub extern "C" fn raf_line_may_name_key(alloc: Global, line: &[u8], key: &[u8]) -> u32
    ensures { TellsOf SpellsKey key_data_at key.now (λ k. TellsLine k line.now result) result
        (Unit {0}) }
{
    match KeyDataRef::from_bytes(key) {
        Ok(read) => match read.to_key_data(alloc) {
            Ok(key) => line_status(line, &key),
            Err(_) => MEMORY,
        },
        Err(error) => error_status(error),
    }
}

/// The same of the authority that signed the certificate which all the bytes spell: its lines with
/// `cert-authority` say whom the certificate lets in.
///
/// Returns what `raf_line_may_name_key` does, with the fault of bytes that are no certificate.
#[unsafe(no_mangle)]
pub extern "C" fn raf_line_may_name_authority(alloc: Global, line: &[u8], certificate: &[u8]) -> u32
    ensures { TellsOf SpellsCertificate certificate_at certificate.now
        (λ c. TellsLine c.signed.signature_key line.now result) result (Unit {0}) }
{
    match CertificateRef::from_bytes(certificate) {
        Ok(read) => match read.signature_key(alloc) {
            Ok(key) => line_status(line, &key),
            Err(_) => MEMORY,
        },
        Err(error) => error_status(error),
    }
}

/// Whether root or the user owns it.
fn is_own(owner: u64, user: u64) -> bool
    ensures { result ≡ is_own owner user }
{
    owner == 0 || owner == user
}

/// The status of a line and a key.
fn line_status(line: &[u8], key: &KeyData) -> u32
    ensures { TellsLine (key_of key.now) line.now result }
{
    if user_keys::line_may_name_key(line, key) {
        return DONE;
    }
    END
}
