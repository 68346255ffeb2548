//! A line of known_hosts that is held.

ghost use Rattle.std.specs.Prelude.{◌↔◌, IsTrue};
ghost use Rattle.sshkey_known_hosts.specs.HeldNames.{IsAmong, TellsNames};

/// A line of a text of known_hosts, and for which names it may be.
#[repr(C)]
#[derive(Clone, Copy, Debug)]
pub struct HeldLine<'a> {
    /// The line as it stands in its text, with its end.
    pub(crate) text: &'a [u8],
    /// The bits of the hashes of its names.
    pub(crate) names: u64,
    ghost names_told: { TellsNames names text.now },
}

/// Whether the bits of a hash are among those of the names.
pub(crate) fn is_among(names: u64, hash: u64) -> bool
    ensures { IsTrue result ↔ IsAmong names hash }
{
    names & hash == hash
}

impl<'a> HeldLine<'a> {
    /// Whether the line may be for a name of that hash.
    pub(crate) fn is_perhaps_for(&self, hash: u64) -> bool
        ensures { IsTrue result ↔ IsAmong self.now.names hash }
    {
        is_among(self.names, hash)
    }
}
