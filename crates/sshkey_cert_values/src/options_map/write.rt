//! How options are written.

ghost use Rattle.std.specs.Prelude.{◌+◌, ◌*◌, ◌^◌, ◌<◌};
ghost use Rattle.sshkey_model.specs.Options.{option, option_value, Plain};
ghost use Rattle.sshkey_model.specs.Parts.{each};
ghost use Rattle.sshkey_base.specs.Sink.{Encodes, MeasuresBoxed};
ghost use Rattle.sshkey_model.specs.Options.{plain_option};
ghost use Rattle.sshkey_cert_values.specs.CertificateFields.{options_of};

use super::OptionsMap;
use sshkey_base::{Encode, Writer, encode_string, encoding, string_len, u32_of};

/// A value, as it stands in its string: nothing where it is empty, else one text.
#[derive(Clone, Copy)]
struct OptionValue<'v> {
    value: &'v str,
}

impl Encode for OptionValue<'_> {
    ghost normal = { λ v. option_value v.value.now Plain };

    ghost max_len = { 2 ^ 32 + 3 };

    fn encoded_len(&self) -> encoding::Result<usize> {
        if self.value.is_empty() {
            return Ok(0);
        }
        string_len(self.value.as_bytes())
    }

    fn encode<W: Writer>(&self, writer: &mut W) -> encoding::Result<()> {
        if self.value.is_empty() {
            return Ok(());
        }
        encode_string(self.value.as_bytes(), writer)
    }
}

/// An option: the string of its name, and that of its value.
#[derive(Clone, Copy)]
struct PlainOption<'o> {
    name: &'o str,
    value: OptionValue<'o>,
}

#[tactic(auto, using(sshkey_base::proofs::Writing::writing, sshkey_base::proofs::Writing::measuring))]
impl Encode for PlainOption<'_> {
    ghost normal = { λ o. plain_option (record { name = o.name.now; value = o.value.value.now }) };

    ghost max_len = { 2 * (2 ^ 32 + 4) };

    fn encoded_len(&self) -> encoding::Result<usize> {
        Ok(self.name.encoded_len()? + self.value.encoded_len_prefixed()?)
    }

    fn encode<W: Writer>(&self, writer: &mut W) -> encoding::Result<()> {
        self.name.encode(writer)?;
        self.value.encode_prefixed(writer)
    }
}

/// How many bytes the options have, one after the other. Fails with `Length` exactly if a box can't
/// hold them, or a box in one of them is too long.
pub(super) fn each_len(options: &OptionsMap) -> encoding::Result<u32>
    ensures { MeasuresBoxed (each plain_option (options_of options.now)) result }
{
    let mut len = 0;
    for (name, value) in &options.0 {
        let value = OptionValue {
            value: value.as_str(),
        };
        let option = PlainOption {
            name: name.as_str(),
            value,
        };
        let total = option.encoded_len()?.saturating_add(len as usize);
        len = u32_of(total)?;
    }
    Ok(len)
}

/// Writes the options, one after the other.
pub(super) fn encode_each<W: Writer>(options: &OptionsMap, writer: &mut W) -> encoding::Result<()>
    ensures { Encodes W.fault (each plain_option (options_of options.now))
        (W.sink writer.old) result (W.sink writer.new) }
{
    for (name, value) in &options.0 {
        let value = OptionValue {
            value: value.as_str(),
        };
        let option = PlainOption {
            name: name.as_str(),
            value,
        };
        option.encode(writer)?;
    }
    Ok(())
}
