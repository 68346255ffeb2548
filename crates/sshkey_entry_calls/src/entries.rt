//! Entries of lines, as OpenSSH reads them.

ghost use Rattle.std.specs.Prelude.{◌≡◌, IfOk, option_map};
ghost use Rattle.sshkey_authorized_keys.specs.OpenSshEntries.{openssh_entry_of};
ghost use Rattle.sshkey_authorized_keys.specs.OpenSshEntries as keys;
ghost use Rattle.sshkey_entries.specs.OpenSshLines.{IsAuthorizedLine, IsHostLine};
ghost use Rattle.sshkey_known_hosts.specs.HostEntries.{known_host_of, marker_of};
ghost use Rattle.sshkey_known_hosts.specs.HostEntries as hosts;
ghost use Rattle.sshkey_public.specs.PublicKeys.{comment_of, public_of};
ghost use Rattle.sshkey_calls.specs.Rooms.{IsLaidOut};
ghost use Rattle.sshkey_entry_calls.specs.Entries.{ArePlaced, FindsEntry, NeedsAuthorizedEntry, TellsFault, content_of, entry_text, marker_number, of_authorized_key, of_known_host};

use sshkey_authorized_keys::{Entry as AuthorizedEntry, OpenSshEntry};
use sshkey_base::Result;
use sshkey_calls::number::{MEMORY, error_status};
use sshkey_calls::part::{self, Part, add, add_encoded};
use sshkey_known_hosts::{Entry as KnownHost, Marker};
use sshkey_public::PublicKey;
use std::alloc::Global;

/// Where the parts of an entry are in the room that was given.
#[repr(C)]
#[derive(Clone, Copy, Debug)]
pub struct EntryParts {
    /// What precedes the key: the options of an entry of authorized_keys, as they are in the line,
    /// or the hosts of one of known_hosts.
    pub front: Part,
    /// The key's blob in its normal form (RFC 4253, section 6.6).
    pub key: Part,
    /// The comment.
    pub comment: Part,
    /// How many bytes of the room these take.
    pub length: usize,
    /// 1 for `@cert-authority`, 2 for `@revoked`, and 0 for no marker.
    pub marker: u32,
}

/// Answers with the entry of a line of authorized_keys, its parts in the room.
///
/// Returns 0, 2 where the room is shorter, 1 if memory ran out, and from 10 to 29 a fault of a line
/// that is no entry.
pub fn authorized_entry_of(
    alloc: Global,
    line: &str,
    room: &mut [u8],
    answer: &mut EntryParts,
) -> u32
    ensures entry { FindsEntry (IsAuthorizedLine line.now) of_authorized_key
        result answer.old answer.new room.old room.new }
    ensures fault { TellsFault keys.HasLineFault line.now result }
    ensures memory { result ≡ 1 → NeedsAuthorizedEntry line.now }
{
    match AuthorizedEntry::from_line_openssh(alloc, line) {
        Ok(entry) => tell_authorized_key(alloc, &entry, room, answer),
        Err(error) => error_status(error),
    }
}

/// Answers with an entry of authorized_keys.
fn tell_authorized_key(
    alloc: Global,
    entry: &OpenSshEntry,
    room: &mut [u8],
    answer: &mut EntryParts,
) -> u32
    ensures { FindsEntry (λ a. a ≡ openssh_entry_of entry.now) of_authorized_key
        result answer.old answer.new room.old room.new }
{
    let options = entry.options().as_str();
    answer_with(alloc, options, entry.public_key(), 0, room, answer)
}

/// Answers with the entry of a line of known_hosts, likewise.
pub fn known_host_of(alloc: Global, line: &str, room: &mut [u8], answer: &mut EntryParts) -> u32
    ensures entry { FindsEntry (IsHostLine line.now) of_known_host
        result answer.old answer.new room.old room.new }
    ensures fault { TellsFault hosts.HasLineFault line.now result }
    ensures memory { result ≡ 1 → hosts.NeedsHostLine line.now }
{
    match KnownHost::from_line_openssh(alloc, line) {
        Ok(entry) => tell_known_host(alloc, &entry, room, answer),
        Err(error) => error_status(error),
    }
}

/// Answers with an entry of known_hosts.
fn tell_known_host(
    alloc: Global,
    entry: &KnownHost,
    room: &mut [u8],
    answer: &mut EntryParts,
) -> u32
    ensures { FindsEntry (λ h. h ≡ known_host_of entry.now) of_known_host
        result answer.old answer.new room.old room.new }
{
    match entry.host_patterns().to_string(alloc) {
        Ok(hosts) => {
            let marker = marker_number(entry.marker());
            answer_with(
                alloc,
                hosts.as_str(),
                entry.public_key(),
                marker,
                room,
                answer,
            )
        }
        Err(_) => MEMORY,
    }
}

/// The number of a marker, and 0 for none.
fn marker_number(marker: Option<Marker>) -> u32
    ensures { result ≡ marker_number (option_map marker_of marker) }
{
    match marker {
        None => 0,
        Some(Marker::CertAuthority) => 1,
        Some(Marker::Revoked) => 2,
    }
}

/// Answers with an entry, its parts in the room where there is room for them.
fn answer_with(
    alloc: Global,
    front: &str,
    key: &PublicKey,
    marker: u32,
    room: &mut [u8],
    answer: &mut EntryParts,
) -> u32
    ensures { FindsEntry (λ x. x ≡ entry_text front.now (public_of key.now) (comment_of key.now)
        marker) (λ x. x) result answer.old answer.new room.old room.new }
{
    part::answer_with(lay_out_entry(alloc, front, key, marker), room, answer)
}

/// The bytes of an entry's parts, one after the other, and where they are.
fn lay_out_entry(
    alloc: Global,
    front: &str,
    key: &PublicKey,
    marker: u32,
) -> Result<(Vec<u8>, EntryParts)>
    ensures { IfOk result (λ laid. IsLaidOut content_of ArePlaced (entry_text front.now
        (public_of key.now) (comment_of key.now) marker) laid.0.items laid.1) }
{
    let texts = front.len().saturating_add(key.comment().len());
    let mut content = part::with_capacity(alloc, key.key_data(), texts)?;
    let front = add(front.as_bytes(), &mut content)?;
    let blob = add_encoded(key.key_data(), &mut content)?;
    let comment = add(key.comment().as_bytes(), &mut content)?;
    let length = content.len();
    Ok((
        content,
        EntryParts {
            front,
            key: blob,
            comment,
            length,
            marker,
        },
    ))
}
