//! Errors: their texts, and what they become.

use super::support::shows;
use sshkey_base::certificate::Field;
use sshkey_base::{Algorithm, Error, LabelError, encoding};
use std::alloc::{AllocError, Global};
use std::io;

/// Errors that no line of the table is refused with, and their texts.
fn have_texts(alloc: Global) -> bool {
    let unsupported = Error::AlgorithmUnsupported {
        algorithm: Algorithm::Rsa { hash: None },
    };
    shows(alloc, &unsupported, "unsupported algorithm: ssh-rsa")
        && shows(alloc, &Error::Decrypted, "private key is already decrypted")
        && shows(alloc, &Error::Encrypted, "private key is encrypted")
        && shows(alloc, &Error::Io(io::ErrorKind::Other), "I/O error")
        && shows(alloc, &Error::Memory, "out of memory")
        && shows(alloc, &encoding::Error::Memory, "out of memory")
        && shows(alloc, &LabelError, "label invalid")
}

/// The field has that text, and so has the error that says that it is invalid.
fn is_named(alloc: Global, field: Field, text: &str) -> bool {
    match format!(in alloc; "certificate field invalid: {text}") {
        Ok(error) => {
            field.as_str() == text
                && shows(alloc, &field, text)
                && shows(alloc, &field.invalid_error(), &error)
        }
        Err(_) => false,
    }
}

#[test]
fn texts(rt: HostRuntime) {
    assert!(rt; have_texts(rt.alloc()));
    for (field, text) in [
        (Field::PublicKey, "public key"),
        (Field::Nonce, "nonce"),
        (Field::Serial, "serial"),
        (Field::CertType, "type"),
        (Field::KeyId, "key id"),
        (Field::ValidPrincipals, "valid principals"),
        (Field::ValidAfter, "valid after"),
        (Field::ValidBefore, "valid before"),
        (Field::CriticalOptions, "critical options"),
        (Field::Extensions, "extensions"),
        (Field::SignatureKey, "signature key"),
        (Field::Signature, "signature"),
        (Field::Comment, "comment"),
    ] {
        assert!(rt; is_named(rt.alloc(), field, text), "{text}");
    }
}

/// Errors of the encoding, of memory, of texts and of the machine become errors of the crates.
fn widen() -> bool {
    let characters = encoding::Error::CharacterEncoding;
    let full = io::Error::from(io::ErrorKind::OutOfMemory);
    let closed = io::Error::from(io::ErrorKind::BrokenPipe);
    let no_text = std::str::from_utf8(&[0xff]);
    Error::from(encoding::Error::Label) == Error::Encoding(encoding::Error::Label)
        && Error::from(encoding::Error::Memory) == Error::Memory
        && Error::from(LabelError) == Error::Encoding(encoding::Error::Label)
        && encoding::Error::from(LabelError) == encoding::Error::Label
        && encoding::Error::from(AllocError) == encoding::Error::Memory
        && Error::from(AllocError) == Error::Memory
        && Error::from(full) == Error::Memory
        && Error::from(closed) == Error::Io(io::ErrorKind::BrokenPipe)
        && no_text.is_err_and(|error| {
            encoding::Error::from(error) == characters
                && Error::from(error) == Error::Encoding(characters)
        })
}

#[test]
fn errors_become_others(rt: HostRuntime) {
    assert!(rt; widen());
}
