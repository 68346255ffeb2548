//! Fingerprints as pictures.

ghost use Rattle.std.specs.Prelude.{◌≡◌, IfErr, IfOk, Some, string_bytes};
ghost use Rattle.std.specs.Fmt.{WritesOnOk};
ghost use Rattle.sshkey_fingerprints.specs.RandomArt.{hash_label, title};
ghost use Rattle.sshkey_fingerprints.specs.Fingerprints.{fingerprint_hash};
ghost use Rattle.sshkey_fingerprints.specs.Pictures.{art_of, picture_of};

use crate::fingerprint::Fingerprint;
use crate::random_art::RandomArt;
use sshkey_base::{Error, Result};
use std::alloc::Global;
use std::fmt;

/// A fingerprint that is shown under a header.
#[derive(Clone, Copy)]
struct Picture<'a> {
    fingerprint: Fingerprint,
    header: &'a str,
}

impl fmt::Display for Picture<'_> {
    ghost output = { λ shown. Some (picture_of shown) };

    fn fmt<W: fmt::Write>(&self, f: &mut fmt::Formatter<W>) -> fmt::Result {
        self.fingerprint.fmt_randomart(self.header, f)
    }
}

/// Writes a text between dashes, as the first and the last line of a picture.
fn write_title<W: fmt::Write>(text: &str, f: &mut fmt::Formatter<W>) -> fmt::Result
    ensures { WritesOnOk W.write_str_gives f.old result (title text.now) f.new }
{
    write!(f, "+{text:-^17}+")
}

impl Fingerprint {
    /// Writes the fingerprint as random art under that header, as `ssh-keygen -lv` does: eleven
    /// lines, without a line end after the last.
    ///
    /// The header is centred in 17 characters, and a longer one stands whole. Does not allocate.
    /// What was written before an error is unspecified.
    pub fn fmt_randomart<W: fmt::Write>(
        &self,
        header: &str,
        f: &mut fmt::Formatter<W>,
    ) -> fmt::Result
        ensures { WritesOnOk W.write_str_gives f.old result (art_of header.now self.now) f.new }
    {
        let art = RandomArt::new(self.as_bytes());
        write_title(header, f)?;
        write!(f, "\n{art}")?;
        write_title(self.label(), f)
    }

    /// The fingerprint as random art under that header, as `ssh-keygen -lv` shows it: eleven lines,
    /// without a line end after the last. Fails only when out of memory.
    pub fn to_randomart(&self, alloc: Global, header: &str) -> Result<String>
        ensures art { IfOk result (λ art. string_bytes art ≡ art_of header.now self.now) }
        ensures refused { IfErr result (λ e. e ≡ Error.Memory) }
    {
        let picture = Picture {
            fingerprint: *self,
            header,
        };
        Ok(format!(in alloc; "{picture}")?)
    }

    /// The name of the hash as it stands below the picture.
    fn label(&self) -> &'static str
        ensures { result.now ≡ hash_label (fingerprint_hash self.now) }
    {
        match self {
            Fingerprint::Sha256(_) => "[SHA256]",
            Fingerprint::Sha512(_) => "[SHA512]",
        }
    }
}
