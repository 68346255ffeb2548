//! Points.

ghost use Rattle.std.specs.Prelude.{◌≤◌};

use sshkey_base::Result;
use sshkey_kinds::{EcPoint, EcdsaPublicKey};
use std::alloc::Global;

/// Whether the bytes are a point string of the curve whose longest one has `LEN` bytes.
pub(crate) fn point<const LEN: usize>(alloc: Global, bytes: &[u8]) -> Result<String>
    requires { LEN ≤ 133 }
{
    let point = EcPoint::<LEN>::from_bytes(bytes)?;
    said(alloc, point.as_bytes() == bytes)
}

/// The curve of a point string.
pub(crate) fn curve_of_point(alloc: Global, bytes: &[u8]) -> Result<String> {
    let key = EcdsaPublicKey::from_sec1_bytes(bytes)?;
    let mut answer = said(alloc, key.as_sec1_bytes() == bytes)?;
    answer.push_str(" on ")?;
    answer.push_str(key.curve().as_str())?;
    Ok(answer)
}

fn said(alloc: Global, is_same: bool) -> Result<String> {
    let answer = if is_same { "a point" } else { "another point" };
    Ok(String::from_str(alloc, answer)?)
}
