//! Markers of lines of known_hosts.

ghost use Rattle.std.specs.Prelude.{◌≡◌, Some};
ghost use Rattle.sshkey_entries.specs.KnownHosts.{marker_text};
ghost use Rattle.sshkey_known_hosts.specs.HostEntries.{marker_of, ReadsMarker};

use sshkey_base::{Error, Result};
use std::convert::AsStr;
use std::fmt;
use std::str::FromStr;

/// What a line of known_hosts says of its key (sshd(8), "SSH_KNOWN_HOSTS FILE FORMAT").
#[derive(Debug, Clone, Copy, PartialEq, Eq)]
pub enum Marker {
    /// The key signs the keys of hosts.
    CertAuthority,
    /// The key is revoked.
    Revoked,
}

impl Marker {
    /// The marker as it is written.
    pub fn as_str(&self) -> &'static str
        ensures { result.now ≡ marker_text (marker_of self.now) }
    {
        match self {
            Marker::CertAuthority => "@cert-authority",
            Marker::Revoked => "@revoked",
        }
    }
}

/// Fails with `FormatEncoding` for any other text. Does not allocate.
impl FromStr for Marker {
    type Err = Error;

    ghost from_str_gives = { ReadsMarker };

    fn from_str(text: &str) -> Result<Marker>
        ensures { ReadsMarker text.now result }
    {
        match text {
            "@cert-authority" => Ok(Marker::CertAuthority),
            "@revoked" => Ok(Marker::Revoked),
            _ => Err(Error::FormatEncoding),
        }
    }
}

impl AsStr for Marker {
    ghost text = { λ marker. marker_text (marker_of marker) };

    fn as_str(&self) -> &str {
        Marker::as_str(self)
    }
}

impl fmt::Display for Marker {
    ghost output = { λ marker. Some (marker_text (marker_of marker)) };

    ghost styled_output = { λ marker _. Some (marker_text (marker_of marker)) };

    fn fmt<W: fmt::Write>(&self, f: &mut fmt::Formatter<W>) -> fmt::Result {
        f.write_str(self.as_str())
    }
}
