//! The number of what is answered of a host.

ghost use Rattle.std.specs.Prelude.{◌≡◌, ◌≢◌, IfErr};
ghost use Rattle.sshkey_entry_calls.specs.Hosts.{TellsKnown, answer_status, host_status, known_by_number, revoked_status};

use crate::asked_host::host_fault_status;
use host_keys::{HostRefusal, KnownBy};
use sshkey_calls::number::{
    DONE, HOST_CHANGED, HOST_REVOKED, HOST_UNKNOWN, HOST_UNREADABLE, KEY_NOT_ACCEPTED, MEMORY,
    NOT_NORMAL_FORM, UNREADABLE_REVOCATIONS, certificate_error_status, refusal_status,
};

/// What stands in place of the number of `KnownBy` where a host is not known.
const NOTHING: u32 = 0;

/// The number of an answer, by whether each revocation file could be read.
pub(crate) fn answer_status(answer: Result<(), HostRefusal>, are_read: bool) -> u32
    ensures number { result ≡ answer_status are_read answer }
    ensures some { IfErr answer (λ _. result ≢ 0) }
{
    match answer {
        Ok(()) => DONE,
        Err(refusal) => host_status(refusal, are_read),
    }
}

/// The number of an answer, as `answer_status`, and of by what the host is known.
pub(crate) fn tell_known(
    answer: Result<KnownBy, HostRefusal>,
    are_read: bool,
    known_by: &mut u32,
) -> u32
    ensures number { TellsKnown are_read answer known_by.new result }
    ensures some { IfErr answer (λ _. result ≢ 0) }
{
    match answer {
        Ok(by) => {
            *known_by = known_by_number(by);
            DONE
        }
        Err(refusal) => tell_unknown(host_status(refusal, are_read), known_by),
    }
}

/// That number, of a host that is not known: what stands for by what it is known is 0.
pub fn tell_unknown(status: u32, known_by: &mut u32) -> u32
    ensures same { result ≡ status }
    ensures unknown { known_by.new ≡ 0 }
{
    *known_by = NOTHING;
    status
}

fn known_by_number(by: KnownBy) -> u32
    ensures { result ≡ known_by_number by }
{
    match by {
        KnownBy::Authority => 1,
        KnownBy::CertifiedKey => 2,
    }
}

/// The number of a refusal.
fn host_status(refusal: HostRefusal, are_read: bool) -> u32
    ensures number { result ≡ host_status are_read refusal }
    ensures some { result ≢ 0 }
{
    match refusal {
        HostRefusal::Revoked => revoked_status(are_read),
        HostRefusal::Unreadable => HOST_UNREADABLE,
        HostRefusal::Changed => HOST_CHANGED,
        HostRefusal::Unknown => HOST_UNKNOWN,
        HostRefusal::UnacceptedKey => KEY_NOT_ACCEPTED,
        HostRefusal::NotNormalForm => NOT_NORMAL_FORM,
        HostRefusal::Host(fault) => host_fault_status(fault),
        HostRefusal::Certificate(error) => certificate_error_status(error),
        HostRefusal::Invalid(first) => refusal_status(Some(first)),
        HostRefusal::Memory => MEMORY,
    }
}

/// The number of what is revoked: everything, where a revocation file could not be read.
fn revoked_status(are_read: bool) -> u32
    ensures { result ≡ revoked_status are_read }
{
    if are_read {
        HOST_REVOKED
    } else {
        UNREADABLE_REVOCATIONS
    }
}
