//! Options as sshd(8) reads them.

ghost use Rattle.std.specs.Prelude.{◌≡◌, ◌↔◌, ℕ, List, [], IfErr, IfOk, IsTrue};
ghost use Rattle.sshkey_base.specs.declared.error.Error.TheVariants as wide;
ghost use Rattle.sshkey_entries.specs.OptionItems.{MaySay, Says};
ghost use Rattle.sshkey_entries.specs.Answers.{Tells};
ghost use Rattle.sshkey_authorized_keys.specs.Options.{FindsAlso, FindsIn, key_option_of};

use crate::openssh_option::{OpenSshOption, OpenSshOptionsIter};
use sshkey_base::{Result, Text};
use sshkey_entries::{AddOptions, Reading};
use std::alloc::{AllocError, Global};
use std::marker::Model;

/// The options before a key, as they stand in its line. Contracts see their text.
#[derive(Debug, Drop)]
pub struct OpenSshOptions {
    text: Text,
}

impl Model for OpenSshOptions {
    ghost Value = { List ℕ };

    ghost view = { λ o. o.text };
}

impl OpenSshOptions {
    /// No options. Does not allocate.
    pub(crate) fn none(alloc: Global) -> OpenSshOptions
        ensures { result ≡ [] }
    {
        OpenSshOptions {
            text: Text::new(String::new(alloc)),
        }
    }

    pub(crate) fn copied(alloc: Global, text: &str) -> Result<OpenSshOptions>
        ensures copy { IfOk result (λ o. o ≡ text.now) }
        ensures memory { IfErr result (λ e. e ≡ wide.Memory) }
    {
        Ok(OpenSshOptions {
            text: Text::new(String::from_str(alloc, text)?),
        })
    }

    /// The options as they stand in the line.
    pub fn as_str(&self) -> &str
        ensures { result.now ≡ self.now }
    {
        self.text.as_str()
    }

    /// Whether there are none.
    pub fn is_empty(&self) -> bool
        ensures { IsTrue result ↔ (self.now ≡ []) }
    {
        self.as_str().is_empty()
    }

    /// The options, one by one.
    pub fn iter(&self) -> OpenSshOptionsIter<'_>
        ensures { result ≡ self.now }
    {
        OpenSshOptionsIter::new(self.as_str())
    }

    /// Returns the first option of that name, ASCII letters in either case, or `None` if none has
    /// it. Does not allocate.
    ///
    /// Fails with `FormatEncoding` exactly if the text is no list of options, even if the fault
    /// stands after the option that was asked for. sshd(8) rejects an entry that names `command`,
    /// `from` or `principals` twice: to do the same, count by `iter`. Of two `tunnel` it takes the
    /// last.
    ///
    /// So `get` is not enough for a login. Of two options `expiry-time` sshd takes the earlier
    /// time; of `pty`, `no-pty` and `restrict` the last one counts, and so does that of
    /// `touch-required` and `no-touch-required`, and their order is not told here. And sshd rejects
    /// an entry with `command`, `from`, `expiry-time` or `principals` without a value (`value` is
    /// `None`), one with a value in a flag, as `restrict="x"`, and one with `principals` and
    /// without `cert-authority`.
    pub fn get(&self, name: &str) -> Result<Option<OpenSshOption<'_>>>
        ensures { FindsIn self.now name.now result }
    {
        find_option(self.as_str(), name)
    }
}

/// What was found, or else this option where it has the name.
fn first_named<'a>(
    found: Option<OpenSshOption<'a>>,
    option: OpenSshOption<'a>,
    name: &str,
) -> Option<OpenSshOption<'a>>
    ensures { FindsAlso name.now found.entry option.entry result }
{
    if found.is_none() && option.is_named(name) {
        return Some(option);
    }
    found
}

/// The first option of that name in a text.
fn find_option<'a>(text: &'a str, name: &str) -> Result<Option<OpenSshOption<'a>>>
    ensures { FindsIn text.now name.now result }
{
    let mut found = None;
    for option in OpenSshOptionsIter::new(text) {
        match option {
            Ok(option) => found = first_named(found, option, name),
            Err(error) => return Err(error),
        }
    }
    Ok(found)
}

/// What is said once each option of a text has added to it, one after the other.
///
/// `Rejected` where the text is no list of options, or one of them adds nothing; `Unclear` where
/// one that OpenSSH may read stands after options that all add. What follows that one is not read.
/// Fails only when out of memory.
pub fn read_options<T: AddOptions>(
    alloc: Global,
    mut said: T,
    options: &str,
) -> std::result::Result<Reading<T>, AllocError>
    ensures { IfOk result (Tells T.means (Says T.Adds (T.means said) options.now)
        (MaySay T.Adds T.MayBe (T.means said) options.now)) }
{
    for option in OpenSshOptionsIter::new(options) {
        let Ok(option) = option else {
            return Ok(Reading::Rejected);
        };
        match with_option(alloc, said, &option)? {
            Reading::Is(more) => said = more,
            Reading::Rejected => return Ok(Reading::Rejected),
            Reading::Unclear => return Ok(Reading::Unclear),
        }
    }
    Ok(Reading::Is(said))
}

fn with_option<T: AddOptions>(
    alloc: Global,
    said: T,
    option: &OpenSshOption,
) -> std::result::Result<Reading<T>, AllocError>
    ensures { let o = key_option_of option.now in
        IfOk result (Tells T.means (T.Adds o.name o.value (T.means said))
        (T.MayBe o.name o.value)) }
{
    let Ok(value) = option.value(alloc) else {
        return Err(AllocError);
    };
    said.with(alloc, option.name(), value)
}
