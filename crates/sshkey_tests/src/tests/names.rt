//! Names that have no line in the table: defaults, copies, parsing, and names in a room of one's
//! own.

use super::support::{are_alike, is_wanted};
use sshkey_base::{
    Algorithm, AlgorithmName, EcdsaCurve, Error, HashAlg, Label, LabelError, Result, SliceWriter,
    encoding,
};
use std::alloc::Global;

/// The algorithm of the name is that of its label, and a private-use name and its copy are the same.
fn is_labelled(alloc: Global, name: &str) -> Result<bool> {
    let algorithm = Algorithm::new(alloc, name)?;
    Ok(are_alike(
        &algorithm,
        &Algorithm::from_label(alloc, algorithm.label())?,
    ))
}

fn is_copied(alloc: Global, name: &str) -> Result<bool> {
    let name = AlgorithmName::new(alloc, name)?;
    Ok(are_alike(&name, &name.try_clone(alloc)?))
}

#[test]
fn labels_and_copies(rt: HostRuntime) {
    assert!(rt; is_wanted(is_labelled(rt.alloc(), "rsa-sha2-512"), Ok(true)));
    assert!(rt; is_wanted(is_labelled(rt.alloc(), "name@example.com"), Ok(true)));
    assert!(rt; is_wanted(is_copied(rt.alloc(), "name@example.com"), Ok(true)));
}

#[test]
fn defaults_and_parsing(rt: HostRuntime) {
    assert!(rt; Algorithm::default() == Algorithm::Ed25519);
    assert!(rt; HashAlg::default() == HashAlg::Sha256);
    assert!(rt; is_wanted("nistp521".parse::<EcdsaCurve>(), Ok(EcdsaCurve::NistP521)));
    assert!(rt; is_wanted("".parse::<EcdsaCurve>(), Err(LabelError)));
    assert!(rt; is_wanted("sha512".parse::<HashAlg>(), Ok(HashAlg::Sha512)));
    assert!(rt; is_wanted("SHA256".parse::<HashAlg>(), Err(LabelError)));
}

/// Whether the name in certificates is written whole into that room.
fn is_written_into(alloc: Global, room: &mut [u8]) -> Result<bool> {
    let algorithm = Algorithm::new(alloc, "name@example.com")?;
    let mut writer = SliceWriter::new(room);
    algorithm.write_certificate_name(&mut writer)?;
    Ok(
        writer.written() == b"name-cert-v01@example.com".as_slice()
            && algorithm.certificate_name_len() == 25,
    )
}

#[test]
fn a_name_in_a_room(rt: HostRuntime) {
    let length = Error::Encoding(encoding::Error::Length);
    assert!(rt; is_wanted(is_written_into(rt.alloc(), &mut [0; 24]), Err(length)));
    assert!(rt; is_wanted(is_written_into(rt.alloc(), &mut [0; 25]), Ok(true)));
}
