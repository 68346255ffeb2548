//! Options that are gathered as they are read.

ghost use Rattle.std.specs.Prelude.{◌≡◌, ◌∷◌, ◌++◌, [], true, map, option_map, string_bytes, IfOk, OnOk, IfErr, IsOk};
ghost use Rattle.sshkey_model.specs.Options.{may_follow};
ghost use Rattle.sshkey_cert_values.specs.CertificateFields.{option_of, options_of, name_at_end, NamesRise, gathered_pairs};

use super::OptionsMap;
use sshkey_base::{Error, Result};
use std::alloc::Global;
use std::collections::BTreeMap;

/// From this many bytes on, a map takes less time if it is built at once of all its options.
const MANY_BYTES: usize = 512;

/// Pairs of a name and a value, whose names rise.
#[derive(Drop)]
pub(super) enum Gathered {
    /// Few, in the map.
    Few(BTreeMap<String, String>),
    /// Many, from which the map is built at the end.
    Many(Vec<(String, String)>),
}

impl Gathered {
    /// No options, before `bytes` bytes of them are read. Does not allocate.
    pub(super) fn new(alloc: Global, bytes: usize) -> Gathered
        ensures { gathered_pairs result ≡ [] }
    {
        if bytes < MANY_BYTES {
            return Gathered::Few(BTreeMap::new(alloc));
        }
        Gathered::Many(Vec::new(alloc))
    }

    /// The name of the last option.
    pub(super) fn last_name(&self) -> Option<&str>
        ensures { option_map (λ name. name.now) result ≡ name_at_end (gathered_pairs self.now) }
    {
        match self {
            Gathered::Few(options) => match options.last_key_value() {
                Some((name, _)) => Some(name.as_str()),
                None => None,
            },
            Gathered::Many(pairs) => match pairs.last() {
                Some((name, _)) => Some(name.as_str()),
                None => None,
            },
        }
    }

    /// Puts an option after the last. Fails only when out of memory.
    pub(super) fn push(&mut self, name: String, value: String) -> Result<()>
        requires { may_follow (name_at_end (gathered_pairs self.old)) (string_bytes name) ≡ true }
        ensures ok { OnOk result
            (gathered_pairs self.new ≡ gathered_pairs self.old ++ (name, value) ∷ []) }
        ensures memory { IfErr result (λ e. e ≡ Error.Memory) }
    {
        match self {
            Gathered::Few(options) => {
                options.insert(name, value)?;
                Ok(())
            }
            Gathered::Many(pairs) => {
                pairs.push((name, value))?;
                Ok(())
            }
        }
    }

    /// The map of the options. Fails only when out of memory, and never where there are none.
    pub(super) fn into_map(self, alloc: Global) -> Result<OptionsMap>
        requires { NamesRise (gathered_pairs self) }
        ensures value { IfOk result (λ m. options_of m ≡ map option_of (gathered_pairs self)) }
        ensures memory { IfErr result (λ e. e ≡ Error.Memory) }
        ensures in_place { gathered_pairs self ≡ [] → IsOk result }
    {
        match self {
            Gathered::Few(options) => Ok(OptionsMap(options)),
            Gathered::Many(pairs) => {
                if pairs.is_empty() {
                    return Ok(OptionsMap::new(alloc));
                }
                let options: BTreeMap<String, String> = pairs.into_iter().collect(alloc)?;
                Ok(OptionsMap(options))
            }
        }
    }
}
