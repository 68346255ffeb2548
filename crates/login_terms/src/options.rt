//! What each option adds to what is said.

ghost use Rattle.std.specs.Prelude.{◌≡◌, ◌↔◌, false, true, IfOk, IsTrue, map, option_map, string_bytes};
ghost use Rattle.std.specs.List.{Any};
ghost use Rattle.sshkey_entries.specs.Answers.{Tells};
ghost use Rattle.login_terms.specs.Options as terms;
ghost use Rattle.login_terms.specs.Options.{AddsAlone, AddsValue, AddsWord, MayBeValue, MayBeWord, earlier, terms_of, with_flag};
ghost use Rattle.login_terms.specs.Values.{IsVariable, IsVariableName};
ghost use Rattle.login_terms.specs.declared.words.Word.TheVariants as word;

use crate::permissions::Permissions;
use crate::permits::{read_permit_listen, read_permit_open};
use crate::terms::Terms;
use crate::values::{read_expiry, read_tunnel, variable_name};
use crate::words::{Flag, Word, word_of};
use sshkey_entries::{AddOptions, Reading};
use sshkey_matching::Span;
use std::alloc::{AllocError, Global};

/// How many variables sshd(8) reads at most, and how many hosts of each kind.
const MOST_VARIABLES: usize = 1025;

const MOST_PERMITS: usize = 4097;

impl AddOptions for Terms {
    ghost Meaning = { terms.Terms };

    ghost means = { terms_of };

    ghost Adds = { terms.Adds };

    ghost MayBe = { terms.MayBe };

    fn with(
        self,
        alloc: Global,
        name: &str,
        value: Option<String>,
    ) -> Result<Reading<Terms>, AllocError> {
        match word_of(name) {
            Some(word) => self.with_word(alloc, word, value),
            None => Ok(Reading::Rejected),
        }
    }
}

impl Terms {
    fn with_word(
        self,
        alloc: Global,
        word: Word,
        value: Option<String>,
    ) -> Result<Reading<Terms>, AllocError>
        ensures { IfOk result (Tells terms_of
            (AddsWord word (option_map string_bytes value) (terms_of self))
            (MayBeWord word (option_map string_bytes value))) }
    {
        match value {
            Some(value) => self.with_value(alloc, word, value),
            None => Ok(self.with_alone(word)),
        }
    }

    /// What is said with one more option that has no value.
    fn with_alone(mut self, word: Word) -> Reading<Terms>
        ensures { Tells terms_of (AddsAlone word (terms_of self)) ⊥ result }
    {
        match word {
            Word::Allow(flag) => Reading::Is(self.with_flag(flag, true)),
            Word::Deny(flag) => Reading::Is(self.with_flag(flag, false)),
            Word::Restrict => {
                self.permissions = Permissions::none();
                Reading::Is(self)
            }
            Word::CertAuthority => {
                self.is_authority = true;
                Reading::Is(self)
            }
            Word::Command
            | Word::Principals
            | Word::From
            | Word::ExpiryTime
            | Word::Environment
            | Word::PermitOpen
            | Word::PermitListen
            | Word::Tunnel => Reading::Rejected,
        }
    }

    fn with_flag(mut self, flag: Flag, value: bool) -> Terms
        ensures { terms_of result ≡ with_flag flag value (terms_of self) }
    {
        match flag {
            Flag::PortForwarding => self.permissions.port_forwarding = value,
            Flag::AgentForwarding => self.permissions.agent_forwarding = value,
            Flag::X11Forwarding => self.permissions.x11_forwarding = value,
            Flag::Pty => self.permissions.pty = value,
            Flag::UserRc => self.permissions.user_rc = value,
            Flag::TouchRequired => self.touch_required = value,
            Flag::VerifyRequired => self.verify_required = value,
        }
        self
    }

    /// What is said with one more option that has a value.
    fn with_value(
        self,
        alloc: Global,
        word: Word,
        value: String,
    ) -> Result<Reading<Terms>, AllocError>
        ensures { IfOk result (Tells terms_of
            (AddsValue word (string_bytes value) (terms_of self))
            (MayBeValue word (string_bytes value))) }
    {
        match word {
            Word::Command => Ok(self.with_command(value)),
            Word::Principals => Ok(self.with_principals(value)),
            Word::From => Ok(self.with_from(value)),
            Word::ExpiryTime => Ok(self.with_expiry(value)),
            Word::Environment => self.with_variable(value),
            Word::PermitOpen => self.with_permit_open(alloc, value),
            Word::PermitListen => self.with_permit_listen(alloc, value),
            Word::Tunnel => Ok(self.with_tunnel(value)),
            Word::Allow(_) | Word::Deny(_) | Word::Restrict | Word::CertAuthority => {
                Ok(Reading::Rejected)
            }
        }
    }

    fn with_command(mut self, value: String) -> Reading<Terms>
        ensures { Tells terms_of
            (AddsValue word.Command (string_bytes value) (terms_of self)) ⊥ result }
    {
        if self.command.is_some() {
            return Reading::Rejected;
        }
        self.command = Some(value);
        Reading::Is(self)
    }

    fn with_principals(mut self, value: String) -> Reading<Terms>
        ensures { Tells terms_of
            (AddsValue word.Principals (string_bytes value) (terms_of self)) ⊥ result }
    {
        if self.principals.is_some() {
            return Reading::Rejected;
        }
        self.principals = Some(value);
        Reading::Is(self)
    }

    fn with_from(mut self, value: String) -> Reading<Terms>
        ensures { Tells terms_of
            (AddsValue word.From (string_bytes value) (terms_of self)) ⊥ result }
    {
        if self.from.is_some() {
            return Reading::Rejected;
        }
        self.from = Some(value);
        Reading::Is(self)
    }

    fn with_expiry(mut self, value: String) -> Reading<Terms>
        ensures { Tells terms_of
            (AddsValue word.ExpiryTime (string_bytes value) (terms_of self))
            (MayBeValue word.ExpiryTime (string_bytes value)) result }
    {
        match read_expiry(value.as_str()) {
            Reading::Is(time) => {
                self.expires = Some(earlier(self.expires, time));
                Reading::Is(self)
            }
            Reading::Rejected => Reading::Rejected,
            Reading::Unclear => Reading::Unclear,
        }
    }

    fn with_variable(mut self, value: String) -> Result<Reading<Terms>, AllocError>
        ensures { IfOk result (Tells terms_of
            (AddsValue word.Environment (string_bytes value) (terms_of self)) ⊥) }
    {
        if self.environment.len() >= MOST_VARIABLES {
            return Ok(Reading::Rejected);
        }
        let Some(name) = variable_name(value.as_str()) else {
            return Ok(Reading::Rejected);
        };
        if has_variable(&self.environment, name) {
            return Ok(Reading::Is(self));
        }
        self.environment.push(value)?;
        Ok(Reading::Is(self))
    }

    fn with_permit_open(
        mut self,
        alloc: Global,
        value: String,
    ) -> Result<Reading<Terms>, AllocError>
        ensures { IfOk result (Tells terms_of
            (AddsValue word.PermitOpen (string_bytes value) (terms_of self))
            (MayBeValue word.PermitOpen (string_bytes value))) }
    {
        match read_permit_open(alloc, value.as_str())? {
            Reading::Is(permit) => {
                if self.permit_open.len() >= MOST_PERMITS {
                    return Ok(Reading::Rejected);
                }
                self.permit_open.push(permit)?;
                Ok(Reading::Is(self))
            }
            Reading::Rejected => Ok(Reading::Rejected),
            Reading::Unclear => Ok(Reading::Unclear),
        }
    }

    fn with_permit_listen(
        mut self,
        alloc: Global,
        value: String,
    ) -> Result<Reading<Terms>, AllocError>
        ensures { IfOk result (Tells terms_of
            (AddsValue word.PermitListen (string_bytes value) (terms_of self))
            (MayBeValue word.PermitListen (string_bytes value))) }
    {
        match read_permit_listen(alloc, value.as_str())? {
            Reading::Is(permit) => {
                if self.permit_listen.len() >= MOST_PERMITS {
                    return Ok(Reading::Rejected);
                }
                self.permit_listen.push(permit)?;
                Ok(Reading::Is(self))
            }
            Reading::Rejected => Ok(Reading::Rejected),
            Reading::Unclear => Ok(Reading::Unclear),
        }
    }

    fn with_tunnel(mut self, value: String) -> Reading<Terms>
        ensures { Tells terms_of
            (AddsValue word.Tunnel (string_bytes value) (terms_of self))
            (MayBeValue word.Tunnel (string_bytes value)) result }
    {
        match read_tunnel(value.as_str()) {
            Reading::Is(device) => {
                self.tunnel = Some(device);
                Reading::Is(self)
            }
            Reading::Rejected => Reading::Rejected,
            Reading::Unclear => Reading::Unclear,
        }
    }
}

/// Of two times the earlier, as far as it can be told.
fn earlier(known: Option<Span>, time: Span) -> Span
    ensures { result ≡ earlier known time }
{
    match known {
        Some(known) => Span {
            first: known.first.min(time.first),
            last: known.last.min(time.last),
        },
        None => time,
    }
}

/// Whether one of these variables has that name.
fn has_variable(known: &[String], name: &str) -> bool
    requires { IsVariableName name.now }
    ensures { IsTrue result ↔ Any (λ w. IsVariable w name.now) (map string_bytes known.now) }
{
    for variable in known {
        if is_variable_of(variable.as_str(), name) {
            return true;
        }
    }
    false
}

/// Whether a text begins with that name, and goes on with `=`.
fn is_variable_of(text: &str, name: &str) -> bool
    requires { IsVariableName name.now }
    ensures { IsTrue result ↔ IsVariable text.now name.now }
{
    match text.as_bytes().strip_prefix(name.as_bytes()) {
        Some(rest) => rest.starts_with(b"="),
        None => false,
    }
}
