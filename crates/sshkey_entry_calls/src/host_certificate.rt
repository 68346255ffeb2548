//! By what a host that shows a certificate is known.

ghost use Rattle.std.specs.Prelude.{◌≡◌, ◌≢◌, true, length};
ghost use Rattle.host_keys.specs.Hosts.{lines_of};
ghost use Rattle.sshkey_known_hosts.specs.HeldLines.{ArePlacesOf, total_length};
ghost use Rattle.sshkey_entry_calls.specs.Hosts.{JudgesCertificate, are_texts, held_lines};

use crate::host_answer::{tell_known, tell_unknown};
use crate::host_request::HostRequest;
use crate::revocation_files::RevocationFiles;
use host_keys::check_certificate;
use sshkey_calls::GivenAnswer;
use sshkey_calls::number::MEMORY;
use sshkey_known_hosts::{HmacSha1, PlacedText};
use std::alloc::Global;

/// The number of whether the host that shows a certificate is known, and by what, by these texts of
/// known_hosts, the revocation files and what was verified (`host_keys::check_certificate`).
pub fn host_certificate_status(
    alloc: Global,
    login: &HostRequest<'_>,
    texts: &[&[u8]],
    certificate: &[u8],
    said: &GivenAnswer,
    known_by: &mut u32,
) -> u32
    requires { are_texts login.now ≡ true }
    ensures verdict { JudgesCertificate login.now (lines_of texts.now)
        (λ _. said.now.is_yes) certificate.now known_by.new result }
    ensures unknown { result ≢ 0 → known_by.new ≡ 0 }
{
    let Ok(files) = RevocationFiles::read(alloc, login.revoked) else {
        return tell_unknown(MEMORY, known_by);
    };
    let known = login.with_texts(texts);
    tell_known(
        check_certificate(alloc, &known, certificate, &HmacSha1, &files, said),
        files.are_read(),
        known_by,
    )
}

/// The same by a text that is held and by the texts of known_hosts, as if all stood in one.
pub fn held_host_certificate_status(
    alloc: Global,
    login: &HostRequest<'_>,
    held: &PlacedText<'_>,
    certificate: &[u8],
    said: &GivenAnswer,
    known_by: &mut u32,
) -> u32
    requires texts { are_texts login.now ≡ true }
    requires whole { total_length held.now.places.now ≡ length held.now.text.now }
    ensures verdict { ArePlacesOf held.now.places.now held.now.text.now
        → JudgesCertificate login.now (held_lines login.now held.now.text.now)
        (λ _. said.now.is_yes) certificate.now known_by.new result }
    ensures unknown { result ≢ 0 → known_by.new ≡ 0 }
{
    let Ok(texts) = login.texts_with(alloc, held) else {
        return tell_unknown(MEMORY, known_by);
    };
    host_certificate_status(alloc, login, &texts, certificate, said, known_by)
}
