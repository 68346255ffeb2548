//! What a certificate lists, and where it stands.

ghost use Rattle.sshkey_calls.specs.Certificates.{GivesParts, FindsOption};
ghost use Rattle.sshkey_calls.specs.Writing.{WritesCertifiedKey};

use sshkey_calls::certified_key::write_key;
use sshkey_calls::lists::parts_of;
use sshkey_calls::number::{DONE, END, LENGTH, error_status};
use sshkey_calls::option::split_option;
use sshkey_calls::{CertificateParts, OptionParts, Part};
use sshkey_cert_ref::CertificateRef;
use std::alloc::Global;

/// Where the parts are of the certificate that all the bytes spell.
///
/// Returns 0 if they spell one, and else from 10 to 29 their fault. `raf_next_string` goes over the
/// principals, and `raf_next_certificate_option` over the critical options and over the extensions.
/// Does not allocate, and copies nothing.
#[unsafe(no_mangle)]
pub extern "C" fn raf_certificate_parts(certificate: &[u8], answer: &mut CertificateParts) -> u32
    ensures { GivesParts certificate.now result answer.old answer.new }
{
    match CertificateRef::from_bytes(certificate) {
        Ok(read) => {
            *answer = parts_of(&read);
            DONE
        }
        Err(error) => error_status(error),
    }
}

/// Writes the blob of the key that the certificate certifies, as its public key's line has it: a
/// certificate has the key's parts, and not its name.
///
/// Returns 0, 2 where the room is shorter, 1 if memory ran out, and else from 10 to 29 the fault of
/// bytes that are no certificate. A room as long as the certificate is long enough.
#[unsafe(no_mangle)]
pub extern "C" fn raf_certificate_key(
    alloc: Global,
    certificate: &[u8],
    room: &mut [u8],
    length: &mut usize,
) -> u32
    ensures { WritesCertifiedKey certificate.now
        result length.old length.new room.old room.new }
{
    match CertificateRef::from_bytes(certificate) {
        Ok(read) => write_key(alloc, &read, room, length),
        Err(error) => error_status(error),
    }
}

/// The option that begins at that place: the string of a name, and a string that is empty or holds
/// the string of a value (PROTOCOL.certkeys). The next one begins after it.
///
/// Returns 0, 3 exactly where the place is the end of the bytes, and 13 where no option begins.
/// Does not allocate.
#[unsafe(no_mangle)]
pub extern "C" fn raf_next_certificate_option(
    bytes: &[u8],
    place: usize,
    answer: &mut OptionParts,
) -> u32
    ensures { FindsOption bytes.now place result answer.old answer.new }
{
    if place == bytes.len() {
        return END;
    }
    if bytes.len() < place {
        return LENGTH;
    }
    match split_option(&bytes[place..]) {
        Some((name, value, after)) => {
            let next = bytes.len() - after.len();
            *answer = OptionParts {
                name: Part {
                    start: place + 4,
                    length: name.len(),
                },
                value: Part {
                    start: next - value.len(),
                    length: value.len(),
                },
                next,
            };
            DONE
        }
        None => LENGTH,
    }
}
