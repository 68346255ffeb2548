//! Keys as pictures.

ghost use Rattle.std.specs.Prelude.{◌≡◌, IfOk, length};
ghost use Rattle.sshkey_fingerprints.specs.RandomArt.{picture};
ghost use Rattle.sshkey_model.specs.Names.{Sha256};

use sshkey_base::Result;
use sshkey_calls::Sha256Digest;
use sshkey_fingerprints::Fingerprint;
use std::alloc::Global;

/// The picture, and how many bytes it has.
pub fn draw(alloc: Global, digest: &Sha256Digest, header: &str) -> Result<(Vec<u8>, usize)>
    ensures { IfOk result (λ drawn. (drawn.0.items ≡ picture header.now Sha256 digest.now.bytes)
        × (drawn.1 ≡ length drawn.0.items)) }
{
    let picture = Fingerprint::Sha256(digest.bytes).to_randomart(alloc, header)?;
    let bytes = picture.into_bytes();
    let length = bytes.len();
    Ok((bytes, length))
}
