//! What has to be verified of a certificate, and whether it is valid.

ghost use Rattle.std.specs.Prelude.{◌≡◌, Bool, Err};
ghost use Rattle.std.specs.Str.{IsUtf8};
ghost use Rattle.sshkey_model.specs.Certificates.{certificate_at};
ghost use Rattle.sshkey_model.specs.Reading.{Fault, whole};
ghost use Rattle.sshkey_model.specs.Verification.{Question as TheQuestion};
ghost use Rattle.sshkey_calls.specs.Certificates.{GivesFields};
ghost use Rattle.sshkey_calls.specs.Numbers.{fault_number};
ghost use Rattle.sshkey_calls.specs.Signatures.{TellsCertificateQuestion};
ghost use Rattle.sshkey_calls.specs.Validations.{HasRenamedAuthority, IsGoodCertificate, IsGoodCertificateFor, SaysWhether, TellsFirst, TellsFirstFor, Verified, authorities_of};

use sshkey_calls::fields::fields_of;
use sshkey_calls::number::{DONE, TEXT, error_status};
use sshkey_calls::question::ask;
use sshkey_calls::validity::validate;
use sshkey_calls::{CertificateFields, Question, Sha256Digest};
use sshkey_cert_ref::CertificateRef;
use std::alloc::Global;
use std::str;

/// What has to be verified of the certificate that all the bytes spell.
///
/// Returns 0 with the question in the room, 2 where the room is too short for it, 1 if memory ran
/// out, from 10 to 29 the fault of bytes that are no certificate, and 40 where the signature raises
/// no question, since the key and its algorithm do not go together: such a certificate is not
/// valid. With 2 the answer says how much room is needed, and the room is as it was.
#[unsafe(no_mangle)]
pub extern "C" fn raf_certificate_question(
    alloc: Global,
    certificate: &[u8],
    room: &mut [u8],
    answer: &mut Question,
) -> u32
    ensures { TellsCertificateQuestion certificate.now
        result answer.old answer.new room.old room.new }
{
    match CertificateRef::from_bytes(certificate) {
        Ok(read) => ask(alloc, &read, room, answer),
        Err(error) => error_status(error),
    }
}

/// Whether the bytes spell a certificate that is valid at that time, in seconds since 1970, for an
/// authority with one of these SHA-256 fingerprints, where 1 says that its question was answered
/// yes, and every other number that it was not.
///
/// Returns 0 if it is, 1 if memory ran out, from 10 to 29 the fault of bytes that are no
/// certificate, and else what is wrong first: 30 for the signature, 31 for the authority, 32 for a
/// time above 2^63 - 1, 33 for a time before `valid_after`, or not before `valid_before`. What a
/// certificate is for, its critical options and whether it is revoked are not looked at. 1 is
/// answered only for an RSA key under another name than `ssh-rsa`.
#[unsafe(no_mangle)]
pub extern "C" fn raf_check_certificate(
    alloc: Global,
    certificate: &[u8],
    unix_timestamp: u64,
    authorities: &[Sha256Digest],
    is_verified: u32,
) -> u32
    ensures exactly { (accepts : TheQuestion → Bool) → Verified accepts certificate.now is_verified
        → SaysWhether (IsGoodCertificate accepts (authorities_of authorities.now) unix_timestamp
        certificate.now) result }
    ensures first { (accepts : TheQuestion → Bool) → Verified accepts certificate.now is_verified
        → TellsFirst accepts (authorities_of authorities.now) unix_timestamp certificate.now
        result }
    ensures fault { (fault : Fault) → whole certificate_at certificate.now ≡ Err fault
        → result ≡ fault_number fault }
    ensures memory { result ≡ 1 → HasRenamedAuthority certificate.now }
{
    validate(
        alloc,
        certificate,
        unix_timestamp,
        None,
        authorities,
        is_verified,
    )
}

/// The same for a principal, which the certificate must allow: it lists the principal, or nobody.
/// Returns what `raf_check_certificate` does, and last 34 for a principal that is not allowed. 4,
/// first of all, for a principal that is not UTF-8.
///
/// A certificate without principals allows everybody here (PROTOCOL.certkeys), while sshd(8)
/// rejects it for a user.
#[unsafe(no_mangle)]
pub extern "C" fn raf_check_certificate_for(
    alloc: Global,
    certificate: &[u8],
    unix_timestamp: u64,
    principal: &[u8],
    authorities: &[Sha256Digest],
    is_verified: u32,
) -> u32
    ensures exactly { IsUtf8 principal.now → (accepts : TheQuestion → Bool)
        → Verified accepts certificate.now is_verified
        → SaysWhether (IsGoodCertificateFor accepts (authorities_of authorities.now) unix_timestamp
        principal.now certificate.now) result }
    ensures first { IsUtf8 principal.now → (accepts : TheQuestion → Bool)
        → Verified accepts certificate.now is_verified
        → TellsFirstFor accepts (authorities_of authorities.now) unix_timestamp principal.now
        certificate.now result }
    ensures fault { IsUtf8 principal.now → (fault : Fault)
        → whole certificate_at certificate.now ≡ Err fault → result ≡ fault_number fault }
    ensures text { (IsUtf8 principal.now → ⊥) → result ≡ 4 }
    ensures memory { result ≡ 1 → HasRenamedAuthority certificate.now }
{
    match str::from_utf8(principal) {
        Ok(principal) => validate(
            alloc,
            certificate,
            unix_timestamp,
            Some(principal),
            authorities,
            is_verified,
        ),
        Err(_) => TEXT,
    }
}

/// The fields of the certificate that all the bytes spell.
///
/// Returns 0 if they spell one, and else from 10 to 29 their fault. Does not allocate.
#[unsafe(no_mangle)]
pub extern "C" fn raf_certificate_fields(certificate: &[u8], answer: &mut CertificateFields) -> u32
    ensures { GivesFields certificate.now result answer.old answer.new }
{
    match CertificateRef::from_bytes(certificate) {
        Ok(read) => {
            *answer = fields_of(&read);
            DONE
        }
        Err(error) => error_status(error),
    }
}
