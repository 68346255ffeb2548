//! Options one by one, as sshd(8) reads them.

ghost use Rattle.std.specs.Prelude.{◌≡◌, ◌↔◌, ℕ, List, true, IfErr, IfOk, IsTrue, is_some, option_map, string_bytes};
ghost use Rattle.std.specs.Iterator.{item_count};
ghost use Rattle.sshkey_base.specs.declared.error.Error.TheVariants as wide;
ghost use Rattle.sshkey_entries.specs.OptionItems.{IsSameName};

use crate::option_syntax::{ends_option, skip_commas, split_name, split_value, unescaped};
use sshkey_base::{Error, Result};
use std::alloc::Global;
use std::marker::Model;

/// An option: a name, and a value or none. Both are parts of the text.
#[derive(Debug, Clone, Copy)]
pub struct OpenSshOption<'a> {
    name: &'a str,
    quoted: Option<&'a str>,
}

impl<'a> OpenSshOption<'a> {
    ghost use Rattle.sshkey_authorized_keys.specs.Options.{CutsOption, key_option_of};

    /// The option at the front of a text, and what follows it.
    fn split(text: &'a str) -> Option<(OpenSshOption<'a>, &'a str)>
        ensures { CutsOption text.now result }
    {
        let (name, after) = split_name(text);
        if name.is_empty() {
            return None;
        }
        let Some((quoted, rest)) = split_value(after) else {
            return None;
        };
        if !ends_option(rest) {
            return None;
        }
        Some((OpenSshOption { name, quoted }, rest))
    }

    /// The name as it stands there. The `no-` before some names is part of it.
    pub fn name(&self) -> &'a str
        ensures { result.now ≡ (key_option_of self.now).name }
    {
        self.name
    }

    /// Whether the option has that name, letters of ASCII without case (sshd(8): option keywords
    /// are case-insensitive).
    pub fn is_named(&self, name: &str) -> bool
        ensures { IsTrue result ↔ IsSameName (key_option_of self.now).name name.now }
    {
        name.eq_ignore_ascii_case(self.name)
    }

    /// A copy of the value, without its quotes and without each backslash before a quote; or none
    /// where there is no `=`. A value may be empty.
    ///
    /// Fails only when out of memory. Allocates nothing where there is no value.
    pub fn value(&self, alloc: Global) -> Result<Option<String>>
        ensures value { IfOk result (λ v. option_map string_bytes v
            ≡ (key_option_of self.now).value) }
        ensures memory { IfErr result (λ e. e ≡ wide.Memory) }
        ensures asks { IfErr result (λ _. is_some (key_option_of self.now).value ≡ true) }
    {
        match self.quoted {
            Some(quoted) => Ok(Some(unescaped(alloc, quoted)?)),
            None => Ok(None),
        }
    }
}

/// The options of a text, one by one (sshd(8), "AUTHORIZED_KEYS FILE FORMAT").
///
/// Options stand between commas; commas in a row, and at either end, are passed over. Each is a
/// name, or a name, `=` and a value in double quotes, in which a quote stands after a backslash.
/// Neither comma, quote, `=`, space nor tab stands in a name, and no name is empty.
///
/// Where something else stands, the answer is `FormatEncoding`, and then there are no more: as in
/// `command=ls`, whose value has no quotes, in `command="ls`, whose quotes stay open, and in
/// `x="a"b`. sshd rejects all of an entry with such options: so should whoever decides on a login.
/// `OpenSshOptions::get` does. Which names there are, and which want a value, is not asked.
///
/// Contracts see the text that is left. Does not allocate.
#[derive(Debug, Clone, Drop)]
pub struct OpenSshOptionsIter<'a> {
    rest: &'a str,
}

impl<'a> Model for OpenSshOptionsIter<'a> {
    ghost Value = { List ℕ };

    ghost view = { λ s. s.rest.now };
}

impl<'a> OpenSshOptionsIter<'a> {
    /// The options of a text.
    pub fn new(text: &'a str) -> OpenSshOptionsIter<'a>
        ensures { result ≡ text.now }
    {
        OpenSshOptionsIter { rest: text }
    }
}

impl<'a> Iterator for OpenSshOptionsIter<'a> {
    ghost use Rattle.sshkey_authorized_keys.specs.Options.{YieldsOption};

    type Item = Result<OpenSshOption<'a>>;

    ghost next_gives = { YieldsOption };

    ghost remaining = { item_count (λ left. left) };

    fn next(&mut self) -> Option<Result<OpenSshOption<'a>>> {
        let text = skip_commas(self.rest);
        self.rest = "";
        if text.is_empty() {
            return None;
        }
        match OpenSshOption::split(text) {
            Some((option, rest)) => {
                self.rest = rest;
                Some(Ok(option))
            }
            None => Some(Err(Error::FormatEncoding)),
        }
    }
}
