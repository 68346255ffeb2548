//! The numbers that calls answer with.

ghost use Rattle.std.specs.Prelude.{◌≡◌, ◌≢◌, ◌<◌, option_map};
ghost use Rattle.sshkey_base.specs.Causes.{Faulty, NoMemory, cause, encoding_cause};
ghost use Rattle.sshkey_base.specs.declared.error.Error.TheVariants.{Encoding};
ghost use Rattle.sshkey_base.specs.Names.{algorithm_of, curve_of, hash_of};
ghost use Rattle.sshkey_cert.specs.Validity.{refusal_of};
ghost use Rattle.sshkey_model.specs.Names.{Ecdsa, Rsa};
ghost use Rattle.sshkey_model.specs.Reading.{Fault};
ghost use Rattle.sshkey_calls.specs.Numbers.{algorithm_number, certificate_error_status, error_status, fault_number, field_status, refusal_status};

use sshkey_base::certificate::Field;
use sshkey_base::{Algorithm, EcdsaCurve, Error, HashAlg, encoding};
use sshkey_cert::CertificateRefusal;

/// It is done, or holds.
pub const DONE: u32 = 0;
/// Memory was refused, and nothing is said.
pub const MEMORY: u32 = 1;
/// The room is too short.
pub const SHORT_BUFFER: u32 = 2;
/// Nothing is left.
pub const END: u32 = 3;
/// A text of the caller's is not UTF-8.
pub const TEXT: u32 = 4;
/// A word of a line is no Base64, or not the one of its bytes.
pub(crate) const BASE64: u32 = 10;
/// A text is not UTF-8, or has a character that no name has.
pub const CHARACTER_ENCODING: u32 = 11;
/// A name is not allowed there.
pub const LABEL: u32 = 12;
/// A length passes the bytes, or is not the one wanted.
pub const LENGTH: u32 = 13;
/// Bytes follow the end.
pub(crate) const TRAILING_DATA: u32 = 14;
/// A value does not keep the form of its kind.
pub const FORMAT: u32 = 15;
/// Two names differ that have to be one.
pub(crate) const ALGORITHM_UNKNOWN: u32 = 16;
/// A number in a signature is not positive, or a curve is another.
pub(crate) const CRYPTO: u32 = 17;
/// It is no encoding of a point.
pub(crate) const ECDSA: u32 = 18;
/// A time is above 2^63 - 1.
pub(crate) const TIME: u32 = 19;
/// A namespace is empty.
pub(crate) const NAMESPACE: u32 = 20;
/// A fault of private keys, which no call meets.
pub(crate) const PUBLIC_KEY: u32 = 21;
/// An SSH signature is of a version above 1, or a revocation list of another one.
pub(crate) const UNSUPPORTED_VERSION: u32 = 22;
/// An error that no call meets.
pub(crate) const OTHER_FAULT: u32 = 23;
/// It raises no question, or the verification did not say yes.
pub const NOT_SIGNED: u32 = 30;
/// The key that signed is none of the authorities'.
pub(crate) const UNTRUSTED_AUTHORITY: u32 = 31;
/// The time that is asked about is above 2^63 - 1.
pub(crate) const INVALID_TIME: u32 = 32;
/// The certificate is not yet valid, or no longer.
pub(crate) const OUT_OF_WINDOW: u32 = 33;
/// The certificate lists principals, and not this one.
pub(crate) const UNLISTED_PRINCIPAL: u32 = 34;
/// Key and signature do not go together, so nothing is asked.
pub const UNSUPPORTED: u32 = 40;
/// The SSH signature is in another namespace.
pub(crate) const OTHER_NAMESPACE: u32 = 41;
/// A draft lists no principals without saying that all are allowed, or says so and lists some.
pub(crate) const PRINCIPALS: u32 = 45;
/// The window of a draft has no second.
pub(crate) const EMPTY_WINDOW: u32 = 46;
/// A line for the host, or a revocation file, revokes the key or the certificate.
pub const HOST_REVOKED: u32 = 50;
/// A line is no entry, and may be one for the host.
pub const HOST_UNREADABLE: u32 = 51;
/// A line for the host has another key, and none has this one.
pub const HOST_CHANGED: u32 = 52;
/// No line without a marker is for the host.
pub const HOST_UNKNOWN: u32 = 53;
/// No allowed signer is the key, or not for that identity, there and then.
pub const SIGNER_NOT_ALLOWED: u32 = 55;
/// A revocation file or a list revokes the key, the signer's key or the certificate.
pub const REVOKED: u32 = 56;
/// The client's address is none of those that are let in.
pub const ELSEWHERE: u32 = 57;
/// A revocation file cannot be read, or there is none, and so everything is revoked.
pub const UNREADABLE_REVOCATIONS: u32 = 58;
/// OpenSSH lets in no key of that kind or of that size.
pub const KEY_NOT_ACCEPTED: u32 = 59;
/// The bytes of the certificate are not its normal form, and so not those that were signed.
pub const NOT_NORMAL_FORM: u32 = 70;
/// The certificate is for hosts, where it is to be for users, or for users.
const OTHER_TYPE: u32 = 71;
/// The certificate is of another key.
const OTHER_KEY: u32 = 72;
/// A critical option of the certificate is not known, or has a value that sshd does not read.
const CRITICAL_OPTIONS: u32 = 73;
/// Data stand in an extension that is a flag, or a name has a zero byte.
const EXTENSIONS: u32 = 74;
/// The key id has a zero byte.
const KEY_ID: u32 = 75;
/// The certificate lists nobody, too many, or a name with a zero byte; or the user has no name.
const VALID_PRINCIPALS: u32 = 76;
/// The signed bytes are not those of the request.
pub const OTHER_REQUEST: u32 = 80;
/// The algorithm that the request names is not the signature's.
pub const OTHER_ALGORITHM: u32 = 81;
/// Nobody touched the security key.
pub const UNTOUCHED: u32 = 82;
/// The security key did not verify its user.
pub const UNVERIFIED: u32 = 83;

/// A question is asked by DSA.
const ASK_DSA: u32 = 1;
/// A question is asked by ECDSA on P-256.
const ASK_P256: u32 = 2;
/// A question is asked by ECDSA on P-384.
const ASK_P384: u32 = 3;
/// A question is asked by ECDSA on P-521.
const ASK_P521: u32 = 4;
/// A question is asked by Ed25519.
const ASK_ED25519: u32 = 5;
/// A question is asked by RSA with SHA-256.
const ASK_RSA_SHA256: u32 = 6;
/// A question is asked by RSA with SHA-512.
const ASK_RSA_SHA512: u32 = 7;

/// The number of an error: 1 for memory, and else that of its fault.
pub fn error_status(error: Error) -> u32
    ensures fault { (fault : Fault) → cause error ≡ Faulty fault → result ≡ fault_number fault }
    ensures memory { cause error ≡ NoMemory → result ≡ 1 }
    ensures number { result ≡ error_status error }
    ensures some { result ≢ 0 }
    ensures apart { result ≢ 2 }
    ensures range { cause error ≢ NoMemory → (9 < result) × (result < 30) }
{
    match error {
        Error::Memory => MEMORY,
        Error::Encoding(fault) => encoding_status(fault),
        Error::FormatEncoding => FORMAT,
        Error::AlgorithmUnknown => ALGORITHM_UNKNOWN,
        Error::Crypto => CRYPTO,
        Error::Ecdsa => ECDSA,
        Error::Time => TIME,
        Error::Namespace => NAMESPACE,
        Error::PublicKey => PUBLIC_KEY,
        Error::Version { number: _ } => UNSUPPORTED_VERSION,
        Error::TrailingData { remaining: _ } => TRAILING_DATA,
        Error::AlgorithmUnsupported { algorithm: _ }
        | Error::Decrypted
        | Error::CertificateFieldInvalid(_)
        | Error::CertificateValidation
        | Error::Encrypted
        | Error::Io(_) => OTHER_FAULT,
    }
}

/// The number of a fault of the encoding.
fn encoding_status(fault: encoding::Error) -> u32
    ensures number { result ≡ error_status (Encoding fault) }
    ensures fault { (met : Fault) → encoding_cause fault ≡ Faulty met
        → result ≡ fault_number met }
    ensures some { 9 < result }
    ensures range { result < 30 }
{
    match fault {
        encoding::Error::Base64 => BASE64,
        encoding::Error::CharacterEncoding => CHARACTER_ENCODING,
        encoding::Error::Label => LABEL,
        encoding::Error::Length => LENGTH,
        encoding::Error::TrailingData { remaining: _ } => TRAILING_DATA,
        encoding::Error::Memory => OTHER_FAULT,
    }
}

/// The number of why a certificate is refused that is read, or is none: from 71 to 76 for a field
/// that lets nobody in, and else that of the error.
pub fn certificate_error_status(error: Error) -> u32
    ensures number { result ≡ certificate_error_status error }
    ensures fault { (fault : Fault) → cause error ≡ Faulty fault → result ≡ fault_number fault }
    ensures memory { cause error ≡ NoMemory → result ≡ 1 }
    ensures range { cause error ≢ NoMemory → 9 < result }
{
    match error {
        Error::CertificateFieldInvalid(field) => field_status(field),
        error => error_status(error),
    }
}

/// The number of a field of a certificate that lets nobody in.
fn field_status(field: Field) -> u32
    ensures number { result ≡ field_status field }
    ensures range { 9 < result }
{
    match field {
        Field::CertType => OTHER_TYPE,
        Field::PublicKey => OTHER_KEY,
        Field::CriticalOptions => CRITICAL_OPTIONS,
        Field::Extensions => EXTENSIONS,
        Field::KeyId => KEY_ID,
        Field::ValidPrincipals => VALID_PRINCIPALS,
        Field::Nonce
        | Field::Serial
        | Field::ValidAfter
        | Field::ValidBefore
        | Field::SignatureKey
        | Field::Signature
        | Field::Comment => OTHER_FAULT,
    }
}

/// The number of what is wrong with a certificate first, and 0 where nothing is.
pub fn refusal_status(first: Option<CertificateRefusal>) -> u32
    ensures { result ≡ refusal_status (option_map refusal_of first) }
{
    match first {
        None => DONE,
        Some(CertificateRefusal::Signature) => NOT_SIGNED,
        Some(CertificateRefusal::Authority) => UNTRUSTED_AUTHORITY,
        Some(CertificateRefusal::Time) => INVALID_TIME,
        Some(CertificateRefusal::Window) => OUT_OF_WINDOW,
        Some(CertificateRefusal::Principal) => UNLISTED_PRINCIPAL,
    }
}

/// The number of an algorithm that a verifier is asked about, and 0 of another.
pub(crate) fn algorithm_number(algorithm: &Algorithm) -> u32
    ensures { result ≡ algorithm_number (algorithm_of algorithm.now) }
{
    match algorithm {
        Algorithm::Dsa => ASK_DSA,
        Algorithm::Ecdsa { curve } => curve_number(*curve),
        Algorithm::Ed25519 => ASK_ED25519,
        Algorithm::Rsa { hash } => rsa_number(*hash),
        Algorithm::SkEcdsaSha2NistP256 | Algorithm::SkEd25519 | Algorithm::Other(_) => 0,
    }
}

/// The number of ECDSA on that curve.
fn curve_number(curve: EcdsaCurve) -> u32
    ensures { result ≡ algorithm_number (Ecdsa (curve_of curve)) }
{
    match curve {
        EcdsaCurve::NistP256 => ASK_P256,
        EcdsaCurve::NistP384 => ASK_P384,
        EcdsaCurve::NistP521 => ASK_P521,
    }
}

/// The number of RSA with that hash.
fn rsa_number(hash: Option<HashAlg>) -> u32
    ensures { result ≡ algorithm_number (Rsa (option_map hash_of hash)) }
{
    match hash {
        Some(HashAlg::Sha256) => ASK_RSA_SHA256,
        Some(HashAlg::Sha512) => ASK_RSA_SHA512,
        None => 0,
    }
}
