//! The last fields of what a certificate's signature is over.

ghost use Rattle.std.specs.Prelude.{ℕ, List};
ghost use Rattle.sshkey_model.specs.Keys.{Key, key_format};
ghost use Rattle.sshkey_model.specs.Options.{CertificateOption, options_format};
ghost use Rattle.sshkey_model.specs.Leaves.{string_format};
ghost use Rattle.sshkey_model.specs.Terms.{◌then◌, boxed};
ghost use Rattle.sshkey_keys.specs.Keys.{key_of};
ghost use Rattle.sshkey_model.specs.Certificates.{time_format, end_format};
ghost use Rattle.sshkey_cert_values.specs.CertificateFields.{options_of, time_of, end_of};

use crate::{EndTime, OptionsMap, UnixTime};
use sshkey_base::{Bytes, Decode, Error, Reader, Result};
use sshkey_keys::KeyData;
use sshkey_terms::{LengthPrefixed, Then, Wide};
use std::alloc::Global;

/// The reserved bytes, and the key that signs.
type Authority = Then<Wide<Bytes>, LengthPrefixed<KeyData>>;

/// The two times, the critical options, the extensions, and those.
type Fields = Then<UnixTime, Then<EndTime, Then<OptionsMap, Then<OptionsMap, Authority>>>>;

/// The fields from the first time on. A type of its own, as the compiler follows no bound through
/// a term of all fields.
#[derive(Drop)]
pub(super) struct Limits(pub(super) Fields);

impl Decode for Limits {
    type Error = Error;

    ghost Meaning = { ℕ × (ℕ × (List CertificateOption × (List CertificateOption × (List ℕ × Key)))) };

    ghost means = { λ x. (
      time_of x.0.0,
      (end_of x.0.1.0, (options_of x.0.1.1.0, (options_of x.0.1.1.1.0, (x.0.1.1.1.1.0.0, key_of x.0.1.1.1.1.1.0)))),
    ) };

    ghost format = { time_format then end_format then options_format then options_format
        then string_format then boxed key_format };

    fn lawful() {
        Fields::lawful();
    }

    fn decode<R: Reader>(alloc: Global, reader: &mut R) -> Result<Limits> {
        Ok(Limits(Fields::decode(alloc, reader)?))
    }
}
