//! Values that are written into a file and read from it.

use crate::again;
use crate::bytes::{NO_LINE, text};
use sshkey_authorized_keys::AuthorizedKeys;
use sshkey_base::Result;
use sshkey_cert::Certificate;
use sshkey_known_hosts::KnownHosts;
use sshkey_public::PublicKey;
use std::alloc::Global;
use std::fs::{self, Files};

/// The file of each question.
const PATH: &str = "written";

/// What is read from a file in which the text stands, as a value of that kind writes it.
pub(crate) fn value<R: Files>(
    rt: &R,
    alloc: Global,
    kind: &str,
    parts: &[Vec<u8>],
) -> Result<String> {
    let text = text(parts, 0)?;
    match kind {
        "public-key" => public_key(rt, alloc, text),
        "certificate" => certificate(rt, alloc, text),
        "authorized-keys" => authorized_keys(rt, alloc, text),
        "known-hosts" => known_hosts(rt, alloc, text),
        _ => Err(NO_LINE),
    }
}

fn public_key<R: Files>(rt: &R, alloc: Global, line: &str) -> Result<String> {
    write_public_key(rt, alloc, line)?;
    PublicKey::read_openssh_file(rt, alloc, PATH)?.to_openssh(alloc)
}

fn write_public_key<R: Files>(rt: &R, alloc: Global, line: &str) -> Result<()> {
    PublicKey::from_openssh(alloc, line)?.write_openssh_file(rt, alloc, PATH)
}

fn certificate<R: Files>(rt: &R, alloc: Global, line: &str) -> Result<String> {
    write_certificate(rt, alloc, line)?;
    Certificate::read_file(rt, alloc, PATH)?.to_openssh(alloc)
}

fn write_certificate<R: Files>(rt: &R, alloc: Global, line: &str) -> Result<()> {
    Certificate::from_openssh(alloc, line)?.write_file(rt, alloc, PATH)
}

fn authorized_keys<R: Files>(rt: &R, alloc: Global, text: &str) -> Result<String> {
    fs::write(rt, PATH, text)?;
    let entries = AuthorizedKeys::read_file(rt, alloc, PATH)?;
    let mut shown = String::new(alloc);
    for entry in &entries {
        again::add(&mut shown, &entry.to_string(alloc)?)?;
    }
    Ok(shown)
}

fn known_hosts<R: Files>(rt: &R, alloc: Global, text: &str) -> Result<String> {
    fs::write(rt, PATH, text)?;
    let entries = KnownHosts::read_file(rt, alloc, PATH)?;
    let mut shown = String::new(alloc);
    for entry in &entries {
        again::add(&mut shown, &entry.to_string(alloc)?)?;
    }
    Ok(shown)
}
