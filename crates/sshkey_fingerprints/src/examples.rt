//! A worked example.

ghost use Rattle.sshkey_fingerprints.specs.ArtExample.{WorkedPicture};

/// The picture of an Ed25519 key's fingerprint, as `ssh-keygen -lv` shows it.
pub fn worked_picture()
    ensures { WorkedPicture }
{}
