//! The options before a key.

ghost use Rattle.std.specs.Prelude.{◌≡◌, ◌<◌, ◌↔◌, ◌∷◌, ℕ, List, [], length, IfErr, IfOk, IsTrue, Some, nat_eq};
ghost use Rattle.std.specs.Cmp.{partial_equiv_from_equiv};
ghost use Rattle.std.specs.Cmp.Lexicographic.{nat_list_eq_equiv, pointwise};
ghost use Rattle.std.specs.Iterator.{YieldsFirstRef, item_count};
ghost use Rattle.sshkey_base.specs.declared.error.Error.TheVariants as wide;
ghost use Rattle.sshkey_entries.specs.AuthorizedKeys.{is_option_character, AreOptionCharacters};
ghost use Rattle.sshkey_entries.specs.Items.{items};
ghost use Rattle.sshkey_authorized_keys.specs.Options.{FindsDivider, JudgesInMemory, JudgesOptions};

use sshkey_base::{Error, Result, Text, encoding};
use std::alloc::Global;
use std::convert::AsStr;
use std::fmt;
use std::marker::Model;

fn is_option_character(byte: u8) -> bool
    ensures { result ≡ is_option_character byte }
{
    byte.is_ascii_alphanumeric()
        || matches!(byte, b'!'..=b'/' | b':'..=b'@' | b'['..=b'_' | b'{' | b'|' | b'}' | b'~')
}

fn are_options(text: &str) -> bool
    ensures { IsTrue result ↔ AreOptionCharacters text.now }
{
    text.as_bytes()
        .iter()
        .all(|byte| is_option_character(*byte))
}

/// The place of the first comma outside quotes.
fn first_divider(text: &[u8]) -> Option<usize>
    ensures { FindsDivider text.now result }
{
    let mut quoted = false;
    for (index, byte) in text.iter().enumerate() {
        if *byte == b',' && !quoted {
            return Some(index);
        }
        if *byte == b'"' {
            quoted = !quoted;
        }
    }
    None
}

/// The first item of a text, and what follows its comma.
fn split_item(text: &str) -> (&str, &str)
    requires options { AreOptionCharacters text.now }
    requires some { 0 < length text.now }
    ensures items { items text.now ≡ result.0.now ∷ items result.1.now }
    ensures options { AreOptionCharacters result.1.now }
{
    match first_divider(text.as_bytes()) {
        Some(index) => (&text[..index], &text[index + 1..]),
        None => (text, ""),
    }
}

/// The items of options: their parts between the commas outside quotes, a last empty one left out
/// (sshd(8)). Each borrows from the text.
///
/// Contracts see the list of the items that are left.
#[derive(Debug, Clone, Drop)]
pub struct ConfigOptsIter<'a> {
    rest: &'a str,
}

impl<'a> Model for ConfigOptsIter<'a> {
    ghost Value = { List (List ℕ) };

    ghost view = { λ s. items s.rest.now };

    ghost invariant = { λ s. AreOptionCharacters s.rest.now };
}

impl<'a> ConfigOptsIter<'a> {
    /// The items of a text. Fails with `CharacterEncoding` exactly if a character is not allowed: a
    /// byte that is no printable ASCII character, a space or a backquote. Does not allocate.
    pub fn new(text: &'a str) -> Result<ConfigOptsIter<'a>>
        ensures { JudgesOptions (λ it. it) text.now (items text.now) result }
    {
        if !are_options(text) {
            return Err(Error::Encoding(encoding::Error::CharacterEncoding));
        }
        Ok(ConfigOptsIter { rest: text })
    }
}

impl<'a> Iterator for ConfigOptsIter<'a> {
    type Item = &'a str;

    ghost next_gives = { YieldsFirstRef (λ left. left) };

    ghost remaining = { item_count (λ left. left) };

    fn next(&mut self) -> Option<&'a str> {
        if self.rest.is_empty() {
            return None;
        }
        let (item, rest) = split_item(self.rest);
        self.rest = rest;
        Some(item)
    }
}

/// The options before a key, which contracts see as their text.
#[derive(Debug, Drop)]
pub struct ConfigOpts {
    text: Text,
}

impl Model for ConfigOpts {
    ghost Value = { List ℕ };

    ghost view = { λ o. o.text };

    ghost invariant = { λ o. AreOptionCharacters o.text };
}

impl ConfigOpts {
    /// The options of a text. Fails with `CharacterEncoding` exactly if a character is not allowed:
    /// a byte that is no printable ASCII character, a space or a backquote. Else rejected only when
    /// out of memory.
    pub fn new(alloc: Global, text: &str) -> Result<ConfigOpts>
        ensures { JudgesInMemory (λ o. o) text.now text.now result }
    {
        if !are_options(text) {
            return Err(Error::Encoding(encoding::Error::CharacterEncoding));
        }
        Ok(ConfigOpts {
            text: Text::new(String::from_str(alloc, text)?),
        })
    }

    /// No options. Does not allocate.
    pub(crate) fn none(alloc: Global) -> ConfigOpts
        ensures { result ≡ [] }
    {
        ConfigOpts {
            text: Text::new(String::new(alloc)),
        }
    }

    /// The text.
    pub fn as_str(&self) -> &str
        ensures text { result.now ≡ self.now }
        ensures options { AreOptionCharacters result.now }
    {
        self.text.as_str()
    }

    /// Whether there are none.
    pub fn is_empty(&self) -> bool
        ensures { IsTrue result ↔ (self.now ≡ []) }
    {
        self.as_str().is_empty()
    }

    /// The items.
    pub fn iter(&self) -> ConfigOptsIter<'_>
        ensures { result ≡ items self.now }
    {
        ConfigOptsIter {
            rest: self.as_str(),
        }
    }

    /// The same in memory of its own. Fails only when out of memory.
    pub fn try_clone(&self, alloc: Global) -> Result<ConfigOpts>
        ensures copy { IfOk result (λ o. o ≡ self.now) }
        ensures memory { IfErr result (λ e. e ≡ wide.Memory) }
    {
        Ok(ConfigOpts {
            text: self.text.try_clone(alloc)?,
        })
    }
}

impl AsStr for ConfigOpts {
    ghost text = { λ o. o };

    fn as_str(&self) -> &str {
        ConfigOpts::as_str(self)
    }
}

impl fmt::Display for ConfigOpts {
    ghost output = { λ o. Some o };

    ghost styled_output = { λ o _. Some o };

    fn fmt<W: fmt::Write>(&self, f: &mut fmt::Formatter<W>) -> fmt::Result {
        f.write_str(self.as_str())
    }
}

impl PartialEq for ConfigOpts {
    ghost eq = { pointwise nat_eq };

    ghost laws = { partial_equiv_from_equiv nat_list_eq_equiv };

    fn eq(&self, other: &ConfigOpts) -> bool {
        self.as_str() == other.as_str()
    }
}

impl Eq for ConfigOpts {
    ghost laws = { nat_list_eq_equiv };
}
