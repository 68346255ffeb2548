//! The laws.

use ssh_key::PrivateKey;
use sshkey_base::{Algorithm, Bytes, EcdsaCurve, HashAlg, Mpint, Text, laws};
use sshkey_keys::{KeyData, Signature};

/// Names each law at the types that have it. It shows that they have it, and nothing else: a law
/// has no body that could fail.
#[test]
fn the_laws_hold_of_these_types(_rt: HostRuntime) {
    laws::read_back::<u8>();
    laws::read_back::<u32>();
    laws::read_back::<u64>();
    laws::read_back::<usize>();
    laws::read_back::<[u8; 32]>();
    laws::read_back::<Bytes>();
    laws::read_back::<Vec<u8>>();
    laws::read_back::<Text>();
    laws::read_back::<String>();
    laws::read_back::<Vec<String>>();
    laws::read_back::<Mpint>();
    laws::read_back::<Algorithm>();
    laws::read_back::<EcdsaCurve>();
    laws::read_back::<HashAlg>();
    laws::read_back::<KeyData>();
    laws::read_back::<Signature>();
    laws::read_back::<PrivateKey>();
    laws::one_front::<Vec<String>>();
    laws::one_front::<KeyData>();
    laws::one_front::<Signature>();
    laws::one_front::<PrivateKey>();
}
