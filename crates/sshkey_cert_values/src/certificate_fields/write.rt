//! How the fields of a certificate are written.

ghost use Rattle.std.specs.Prelude.{◌≤◌, ◌+◌, ◌*◌, ◌^◌, ◌<◌, IfOk};
ghost use Rattle.sshkey_base.specs.Sink.{Encodes, Measures};
ghost use Rattle.sshkey_cert_values.specs.CertificateFields.{grant_parts, names_parts, limits_parts, authority_parts, to_be_signed_of};

use super::CertificateFields;
use sshkey_base::{Encode, Writer, encoding};

impl CertificateFields {
    /// Writes the serial number and all after it.
    #[tactic(auto, using(sshkey_base::proofs::Writing::writing))]
    pub(super) fn encode_grant<W: Writer>(&self, writer: &mut W) -> encoding::Result<()>
        ensures { Encodes W.fault (grant_parts (to_be_signed_of self.now))
            (W.sink writer.old) result (W.sink writer.new) }
    {
        self.serial.encode(writer)?;
        self.cert_type.encode(writer)?;
        self.encode_names(writer)
    }

    /// Writes the key id and all after it.
    #[tactic(auto, using(sshkey_base::proofs::Writing::writing))]
    fn encode_names<W: Writer>(&self, writer: &mut W) -> encoding::Result<()>
        ensures { Encodes W.fault (names_parts (to_be_signed_of self.now))
            (W.sink writer.old) result (W.sink writer.new) }
    {
        self.key_id.encode(writer)?;
        self.valid_principals.encode(writer)?;
        self.encode_limits(writer)
    }

    /// Writes the two times and all after them.
    #[tactic(auto, using(sshkey_base::proofs::Writing::writing))]
    fn encode_limits<W: Writer>(&self, writer: &mut W) -> encoding::Result<()>
        ensures { Encodes W.fault (limits_parts (to_be_signed_of self.now))
            (W.sink writer.old) result (W.sink writer.new) }
    {
        self.valid_after.encode(writer)?;
        self.valid_before.encode(writer)?;
        self.critical_options.encode(writer)?;
        self.extensions.encode(writer)?;
        self.encode_authority(writer)
    }

    /// Writes the reserved bytes and the key that signed.
    #[tactic(auto, using(sshkey_base::proofs::Writing::writing))]
    fn encode_authority<W: Writer>(&self, writer: &mut W) -> encoding::Result<()>
        ensures { Encodes W.fault (authority_parts (to_be_signed_of self.now))
            (W.sink writer.old) result (W.sink writer.new) }
    {
        self.reserved.encode(writer)?;
        self.signature_key.encode_prefixed(writer)
    }

    /// How many bytes the serial number has, and all after it.
    #[tactic(auto, using(sshkey_base::proofs::Writing::measuring))]
    pub(super) fn grant_len(&self) -> encoding::Result<usize>
        ensures measures { Measures (grant_parts (to_be_signed_of self.now)) result }
        ensures short { IfOk result (λ n. n ≤ 20 * (2 ^ 32 + 4)) }
    {
        Ok(self.serial.encoded_len()? + self.cert_type.encoded_len()? + self.names_len()?)
    }

    /// How many bytes the key id has, and all after it.
    #[tactic(auto, using(sshkey_base::proofs::Writing::measuring))]
    fn names_len(&self) -> encoding::Result<usize>
        ensures measures { Measures (names_parts (to_be_signed_of self.now)) result }
        ensures short { IfOk result (λ n. n ≤ 15 * (2 ^ 32 + 4)) }
    {
        Ok(self.key_id.encoded_len()? + self.valid_principals.encoded_len()? + self.limits_len()?)
    }

    /// How many bytes the two times have, and all after them.
    #[tactic(auto, using(sshkey_base::proofs::Writing::measuring))]
    fn limits_len(&self) -> encoding::Result<usize>
        ensures measures { Measures (limits_parts (to_be_signed_of self.now)) result }
        ensures short { IfOk result (λ n. n ≤ 10 * (2 ^ 32 + 4)) }
    {
        Ok(
            self.valid_after.encoded_len()?
                + self.valid_before.encoded_len()?
                + self.critical_options.encoded_len()?
                + self.extensions.encoded_len()?
                + self.authority_len()?,
        )
    }

    /// How many bytes the reserved ones have, and the key that signed.
    #[tactic(auto, using(sshkey_base::proofs::Writing::measuring))]
    fn authority_len(&self) -> encoding::Result<usize>
        ensures measures { Measures (authority_parts (to_be_signed_of self.now)) result }
        ensures short { IfOk result (λ n. n ≤ 2 * (2 ^ 32 + 4)) }
    {
        Ok(self.reserved.encoded_len()? + self.signature_key.encoded_len_prefixed()?)
    }
}
