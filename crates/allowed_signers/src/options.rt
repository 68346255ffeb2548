//! What the options of a line say.

ghost use Rattle.std.specs.Prelude.{◌≡◌, ◌↔◌, ◌≤◌, IfOk, IfSome, IsTrue, option_map, string_bytes};
ghost use Rattle.sshkey_entries.specs.Patterns.{MatchesList};
ghost use Rattle.sshkey_entries.specs.Answers.{IsTheOne, Tells};
ghost use Rattle.sshkey_entries.specs.OptionItems.{FindsWord};
ghost use Rattle.allowed_signers.specs.AllowedSigners.{AddsOption, AddsValue, AreTerms, AreTimesInOrder, IsTimeValue, Permits, Terms, no_terms, terms_of, words};

use sshkey_authorized_keys::read_options;
use sshkey_entries::{AddOptions, LetterCase, Reading, find_word, matches_pattern_list};
use sshkey_matching::{Span, read_time};
use std::alloc::{AllocError, Global};

/// The name of an option.
#[derive(Clone, Copy)]
enum Word {
    CertAuthority,
    Namespaces,
    ValidAfter,
    ValidBefore,
}

/// The options, and what names them.
const WORDS: [(&str, Word); 4] = [
    ("cert-authority", Word::CertAuthority),
    ("namespaces", Word::Namespaces),
    ("valid-after", Word::ValidAfter),
    ("valid-before", Word::ValidBefore),
];

/// Which option has the name, letters in either case.
fn word_of(name: &str) -> Option<Word>
    ensures { FindsWord words name.now result }
{
    find_word(&WORDS, name)
}

/// The seconds that a value may mean.
fn time_of(value: Option<String>) -> Option<Span>
    ensures { IsTheOne (λ n. n) (IsTimeValue (option_map string_bytes value)) result }
{
    match value {
        Some(text) => read_time(text.as_str()),
        None => None,
    }
}

/// What the options of a line say (ssh-keygen(1), ALLOWED SIGNERS).
pub(crate) struct SignerOptions {
    /// The patterns of the namespaces that the key signs in; in all of them without.
    namespaces: Option<String>,
    /// The first second at which it does, in whatever zone.
    valid_after: Option<u64>,
    /// The last one.
    valid_before: Option<u64>,
    /// Whether the key signs certificates alone.
    is_authority: bool,
}

/// By hand, so that who holds them lets them go by one call.
impl Drop for SignerOptions {
    fn drop(self) {
        let SignerOptions {
            namespaces: _,
            valid_after: _,
            valid_before: _,
            is_authority: _,
        } = self;
    }
}

impl AddOptions for SignerOptions {
    ghost Meaning = { Terms };

    ghost means = { terms_of };

    ghost Adds = { AddsOption };

    ghost MayBe = { λ _ _. ⊥ };

    fn with(
        self,
        _alloc: Global,
        name: &str,
        value: Option<String>,
    ) -> Result<Reading<SignerOptions>, AllocError> {
        match word_of(name) {
            Some(word) => Ok(self.with_value(word, value)),
            None => Ok(Reading::Rejected),
        }
    }
}

impl SignerOptions {
    /// Nothing is said.
    fn none() -> SignerOptions
        ensures { terms_of result ≡ no_terms }
    {
        SignerOptions {
            namespaces: None,
            valid_after: None,
            valid_before: None,
            is_authority: false,
        }
    }

    /// What the options say, or `None` where they are invalid.
    pub(crate) fn read(alloc: Global, options: &str) -> Result<Option<SignerOptions>, AllocError>
        ensures { IfOk result (IsTheOne terms_of (AreTerms options.now)) }
    {
        if options.ends_with(',') {
            return Ok(None);
        }
        match read_options(alloc, SignerOptions::none(), options)? {
            Reading::Is(said) => {
                if !said.are_in_order() {
                    return Ok(None);
                }
                Ok(Some(said))
            }
            Reading::Rejected => Ok(None),
            Reading::Unclear => Ok(None),
        }
    }

    fn with_value(self, word: Word, value: Option<String>) -> Reading<SignerOptions>
        ensures { Tells terms_of
            (AddsValue word (option_map string_bytes value) (terms_of self)) ⊥ result }
    {
        match word {
            Word::CertAuthority => self.with_authority(value),
            Word::Namespaces => self.with_namespaces(value),
            Word::ValidAfter => self.with_start(value),
            Word::ValidBefore => self.with_end(value),
        }
    }

    fn with_authority(mut self, value: Option<String>) -> Reading<SignerOptions>
        ensures { Tells terms_of (AddsValue Word.CertAuthority (option_map string_bytes value)
            (terms_of self)) ⊥ result }
    {
        if value.is_some() {
            return Reading::Rejected;
        }
        self.is_authority = true;
        Reading::Is(self)
    }

    fn with_namespaces(mut self, value: Option<String>) -> Reading<SignerOptions>
        ensures { Tells terms_of
            (AddsValue Word.Namespaces (option_map string_bytes value) (terms_of self)) ⊥ result }
    {
        if self.namespaces.is_some() || value.is_none() {
            return Reading::Rejected;
        }
        self.namespaces = value;
        Reading::Is(self)
    }

    fn with_start(mut self, value: Option<String>) -> Reading<SignerOptions>
        ensures { Tells terms_of
            (AddsValue Word.ValidAfter (option_map string_bytes value) (terms_of self)) ⊥ result }
    {
        let Some(time) = time_of(value) else {
            return Reading::Rejected;
        };
        if self.valid_after.is_some() {
            return Reading::Rejected;
        }
        self.valid_after = Some(time.last);
        Reading::Is(self)
    }

    fn with_end(mut self, value: Option<String>) -> Reading<SignerOptions>
        ensures { Tells terms_of
            (AddsValue Word.ValidBefore (option_map string_bytes value) (terms_of self)) ⊥ result }
    {
        let Some(time) = time_of(value) else {
            return Reading::Rejected;
        };
        if self.valid_before.is_some() {
            return Reading::Rejected;
        }
        self.valid_before = Some(time.first);
        Reading::Is(self)
    }

    /// Whether the first second stands before the last, where both are given.
    fn are_in_order(&self) -> bool
        ensures { IsTrue result ↔ AreTimesInOrder (terms_of self.now) }
    {
        match (self.valid_after, self.valid_before) {
            (Some(first), Some(last)) => first < last,
            (None, _) | (_, None) => true,
        }
    }

    /// Whether a key with these options may sign in the namespace and at the time.
    pub(crate) fn permit(&self, namespace: &str, time: u64) -> bool
        ensures { IsTrue result ↔ Permits namespace.now time (terms_of self.now) }
    {
        !self.is_authority
            && self.has_namespace(namespace)
            && self.has_begun(time)
            && self.has_not_ended(time)
    }

    fn has_namespace(&self, namespace: &str) -> bool
        ensures { IsTrue result ↔ IfSome (terms_of self.now).namespaces
            (λ list. MatchesList (λ c. c) list namespace.now) }
    {
        match &self.namespaces {
            Some(list) => matches_pattern_list(namespace, list.as_str(), LetterCase::Sensitive),
            None => true,
        }
    }

    fn has_begun(&self, time: u64) -> bool
        ensures { IsTrue result ↔ IfSome (terms_of self.now).valid_after (λ first. first ≤ time) }
    {
        match self.valid_after {
            Some(first) => first <= time,
            None => true,
        }
    }

    fn has_not_ended(&self, time: u64) -> bool
        ensures { IsTrue result ↔ IfSome (terms_of self.now).valid_before (λ last. time ≤ last) }
    {
        match self.valid_before {
            Some(last) => time <= last,
            None => true,
        }
    }
}
