//! The number of what is wrong with a host that is asked about.

ghost use Rattle.std.specs.Prelude.{◌≡◌, ◌≢◌};
ghost use Rattle.sshkey_entry_calls.specs.Hosts.{host_fault_status};

use sshkey_calls::number::MEMORY;
use sshkey_matching::HostFault;

/// The port is 0.
const NO_PORT: u32 = 100;
/// The host has no bytes.
const NO_HOST: u32 = 101;
/// The host is like an address, and has no text as one.
const NO_ADDRESS: u32 = 102;

/// The number of what is wrong with a host: 100 for port 0, 101 for a host of no bytes, 102 for one
/// that is like an address and has no text as one, and 1 if memory ran out. Does not allocate.
pub fn host_fault_status(fault: HostFault) -> u32
    ensures number { result ≡ host_fault_status fault }
    ensures some { result ≢ 0 }
{
    match fault {
        HostFault::Port => NO_PORT,
        HostFault::Empty => NO_HOST,
        HostFault::Address => NO_ADDRESS,
        HostFault::Memory => MEMORY,
    }
}
