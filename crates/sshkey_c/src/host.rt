//! Whether a key or a certificate is a host's.
//!
//! Who asks about many hosts and keys keeps a text of known_hosts, and beside it the places of its
//! lines (`raf_place_hosts`). A line for other hosts is then passed over by its number, unread. The
//! places are believed, as the text is; only those of a text of another length are refused.

ghost use Rattle.std.specs.Prelude.{◌≡◌, ◌≢◌, ◌≤◌, ◌<◌, length, take, false, true};
ghost use Rattle.std.specs.Str.Lines.{lines};
ghost use Rattle.sshkey_known_hosts.specs.HeldLines.{ArePlacesOf, total_length};
ghost use Rattle.sshkey_entry_calls.specs.Hosts.{TellsHostCertificate, TellsHostKey, are_texts, held_lines, own_lines};

use sshkey_calls::GivenAnswer;
use sshkey_calls::number::{DONE, HOST_UNREADABLE, SHORT_BUFFER, TEXT, error_status};
use sshkey_cert_ref::CertificateRef;
use sshkey_entry_calls::HostRequest;
use sshkey_entry_calls::host_answer::tell_unknown;
use sshkey_entry_calls::host_certificate::{held_host_certificate_status, host_certificate_status};
use sshkey_entry_calls::host_key::{held_host_key_status, host_key_status};
use sshkey_keys_ref::KeyDataRef;
use sshkey_known_hosts::{LinePlace, PlacedText, place_lines};
use std::alloc::Global;

/// Whether the key that all its bytes spell is the host's (`host_keys::check_key`), by all the
/// texts of known_hosts and the revocation files. Hashed names are compared by
/// `sshkey_known_hosts::HmacSha1`.
///
/// Returns 0 if it is, 1 if memory ran out, 4 where the host's name is not UTF-8, from 10 to 29 the
/// fault of bytes that are no key, and else what is wrong first: 100 for port 0, 101 for a host of
/// no bytes, 102 for one that is like an address and has no text as one; 58 where a revocation file
/// cannot be read, or there is none; 50 for a key that is revoked, 51 where a line that cannot be
/// read may be one for the host, 52 where the host has another key, 53 where no line is for the
/// host, and 59 for a kind or a size of key that ssh(1) does not accept. Memory is taken only for
/// bytes that are a key.
#[unsafe(no_mangle)]
pub extern "C" fn raf_check_host_key(alloc: Global, login: &HostRequest<'_>, key: &[u8]) -> u32
    ensures verdict { are_texts login.now ≡ true → TellsHostKey login.now
        (own_lines login.now) key.now result }
    ensures text { are_texts login.now ≡ false → result ≡ 4 }
{
    if !login.are_texts() {
        return TEXT;
    }
    match KeyDataRef::from_bytes(key) {
        Ok(read) => host_key_status(alloc, login, login.known_hosts, &read),
        Err(error) => error_status(error),
    }
}

/// Whether the host that shows the certificate that the bytes spell is known, and by what
/// (`host_keys::check_certificate`), by all the texts of known_hosts and the revocation files,
/// where 1 says that its question (`raf_certificate_question`) was answered yes, and every other
/// number that it was not. Hashed names are compared by `sshkey_known_hosts::HmacSha1`.
///
/// Returns 0 if it is. Then `known_by` is 1 for a certificate by an authority of the host, and 2
/// for a certified key that is the host's, and with every other answer it is 0.
///
/// Else it returns 1 if memory ran out, 4 where the host's name is not UTF-8, from 10 to 29
/// the fault of bytes that are no certificate, and else what is wrong first: 70 for bytes that are
/// not its normal form; 100 for port 0, 101 for a host of no bytes, 102 for one that is like an
/// address and has no text as one; 58 where a revocation file cannot be read, or there is none; 50
/// where the certificate or one of its keys is revoked, 51 where a line that cannot be read may be
/// one for the host; 30 where it was not verified, and all else is right with the certified key.
///
/// Then, where the key that signed is no authority of the host: 59, 75 and 76 as below, of a
/// certificate that ssh(1) does not read; 52 where the host has another key, and 53 where it has
/// none. Else 59 for a kind or a size of key that ssh(1) does not accept; 71 for one of users, 73
/// for one with critical options, 75 and 76 for a key id and for principals that ssh(1) does not
/// read; 30 where it was not verified, 32 for a time above 2^63 - 1, 33 for a time out of its
/// window and 34 where it is not for the host's name. So 30 alone, before anything is verified,
/// says that it hangs on that. Memory is taken only for bytes that are a certificate.
#[unsafe(no_mangle)]
pub extern "C" fn raf_check_host_certificate(
    alloc: Global,
    login: &HostRequest<'_>,
    certificate: &[u8],
    is_verified: u32,
    known_by: &mut u32,
) -> u32
    ensures verdict { are_texts login.now ≡ true → TellsHostCertificate login.now
        (own_lines login.now) certificate.now is_verified known_by.new result }
    ensures text { are_texts login.now ≡ false → result ≡ 4 }
    ensures unknown { result ≢ 0 → known_by.new ≡ 0 }
{
    if !login.are_texts() {
        return tell_unknown(TEXT, known_by);
    }
    match CertificateRef::from_bytes(certificate) {
        Ok(_) => host_certificate_status(
            alloc,
            login,
            login.known_hosts,
            certificate,
            &GivenAnswer::of(is_verified),
            known_by,
        ),
        Err(error) => tell_unknown(error_status(error), known_by),
    }
}

/// Writes the places of the lines of a text of known_hosts to the front of these, and their number.
///
/// Returns 0 if they are at most as many as these, and else 2: then it writes the number alone.
/// Takes no memory.
#[unsafe(no_mangle)]
pub extern "C" fn raf_place_hosts(
    known_hosts: &[u8],
    places: &mut [LinePlace],
    count: &mut usize,
) -> u32
    ensures count { count.new ≡ length (lines known_hosts.now) }
    ensures places { result ≡ 0 → ArePlacesOf (take count.new places.new) known_hosts.now }
    ensures fits { result ≡ 0 → count.new ≤ length places.old }
    ensures short { result ≢ 0 → result ≡ 2 }
    ensures same { result ≢ 0 → places.new ≡ places.old }
    ensures less { result ≢ 0 → length places.old < count.new }
{
    let room = places.len();
    *count = place_lines(known_hosts, places);
    if *count > room {
        return SHORT_BUFFER;
    }
    DONE
}

/// The same as `raf_check_host_key` says, by a text that is held and by the texts of known_hosts,
/// as if all stood in one. Where the places are together not as long as the text it is 51.
#[unsafe(no_mangle)]
pub extern "C" fn raf_check_held_host_key(
    alloc: Global,
    login: &HostRequest<'_>,
    held: &[u8],
    places: &[LinePlace],
    key: &[u8],
) -> u32
    ensures verdict { are_texts login.now ≡ true → ArePlacesOf places.now held.now
        → TellsHostKey login.now (held_lines login.now held.now) key.now result }
    ensures text { are_texts login.now ≡ false → result ≡ 4 }
    ensures other { are_texts login.now ≡ true → total_length places.now ≢ length held.now
        → result ≡ 51 }
{
    let placed = PlacedText { text: held, places };
    if !login.are_texts() {
        return TEXT;
    }
    if !placed.is_whole() {
        return HOST_UNREADABLE;
    }
    match KeyDataRef::from_bytes(key) {
        Ok(read) => held_host_key_status(alloc, login, &placed, &read),
        Err(error) => error_status(error),
    }
}

/// The same as `raf_check_host_certificate` says, by a text that is held and by the texts of
/// known_hosts, as if all stood in one. Where the places are together not as long as the text it is
/// 51.
#[unsafe(no_mangle)]
pub extern "C" fn raf_check_held_host_certificate(
    alloc: Global,
    login: &HostRequest<'_>,
    held: &[u8],
    places: &[LinePlace],
    certificate: &[u8],
    is_verified: u32,
    known_by: &mut u32,
) -> u32
    ensures verdict { are_texts login.now ≡ true → ArePlacesOf places.now held.now
        → TellsHostCertificate login.now (held_lines login.now held.now) certificate.now
        is_verified known_by.new result }
    ensures text { are_texts login.now ≡ false → result ≡ 4 }
    ensures other { are_texts login.now ≡ true → total_length places.now ≢ length held.now
        → result ≡ 51 }
    ensures unknown { result ≢ 0 → known_by.new ≡ 0 }
{
    let placed = PlacedText { text: held, places };
    if !login.are_texts() {
        return tell_unknown(TEXT, known_by);
    }
    if !placed.is_whole() {
        return tell_unknown(HOST_UNREADABLE, known_by);
    }
    match CertificateRef::from_bytes(certificate) {
        Ok(_) => held_host_certificate_status(
            alloc,
            login,
            &placed,
            certificate,
            &GivenAnswer::of(is_verified),
            known_by,
        ),
        Err(error) => tell_unknown(error_status(error), known_by),
    }
}
