//! Whether a client may come from an address.

ghost use Rattle.sshkey_entry_calls.specs.Addresses.{TellsFrom, TellsSource};

use sshkey_calls::number::{LENGTH, TEXT};
use sshkey_entry_calls::address_of;
use sshkey_entry_calls::addresses::{from_texts, source_status};
use std::alloc::Global;
use std::str;

/// Whether a certificate with that list as its critical option `source-address` lets a client in
/// from the address (`sshkey_matching::source_address_allows`), of 4 or 16 bytes. Does not
/// allocate.
///
/// Returns 0 if it does, 57 if it does not, 13 for another number of bytes, 4 where the list is not
/// UTF-8, and 15 where it is malformed; the first of these.
#[unsafe(no_mangle)]
pub extern "C" fn raf_check_source_address(list: &[u8], address: &[u8]) -> u32
    ensures { TellsSource list.now address.now result }
{
    let Some(address) = address_of(address) else {
        return LENGTH;
    };
    let Ok(list) = str::from_utf8(list) else {
        return TEXT;
    };
    source_status(sshkey_matching::source_address_allows(list, address))
}

/// Whether a line of authorized_keys with that value of its option `from` lets a client in from the
/// address (`sshkey_matching::from_allows_at`), of 4 or 16 bytes. A host of no bytes has no name.
///
/// Returns 0 if it does, 57 if it does not, 1 if memory ran out, 13 for another number of bytes, 4
/// where the list or the host is not UTF-8, the text of the address may be another or the host's
/// name is like one, and 15 where the list is malformed.
#[unsafe(no_mangle)]
pub extern "C" fn raf_check_from(alloc: Global, list: &[u8], host: &[u8], address: &[u8]) -> u32
    ensures { TellsFrom list.now host.now address.now result }
{
    let Some(address) = address_of(address) else {
        return LENGTH;
    };
    let Ok(list) = str::from_utf8(list) else {
        return TEXT;
    };
    let Ok(host) = str::from_utf8(host) else {
        return TEXT;
    };
    from_texts(alloc, list, host, address)
}
