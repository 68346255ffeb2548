//! Hosts of lines of known_hosts.

ghost use Rattle.std.specs.Prelude.{◌≡◌, ◌++◌, ◌↔◌, IsTrue, IfOk, IfErr, OnOk, string_bytes};
ghost use Rattle.std.specs.List.{All, join_with_byte};
ghost use Rattle.sshkey_base.specs.declared.error.Error.TheVariants as wide;
ghost use Rattle.sshkey_entries.specs.HostVerdicts.{AreFor, known_name};
ghost use Rattle.sshkey_entries.specs.KnownHosts.{IsHosts, comma, hosts_text};
ghost use Rattle.sshkey_entries.specs.Answers.{ReadsEntry};
ghost use Rattle.sshkey_public.specs.WrittenLines.{IsOneLine};
ghost use Rattle.sshkey_known_hosts.specs.HostEntries.{hosts_of, ReadsHashed, ReadsPatterns, ReadsBase64};
ghost use Rattle.sshkey_known_hosts.specs.HostFaults.{RefusesHosts};

use crate::host_hasher::HostHasher;
use crate::host_name::{are_named, known_name};
use base64::DecodeAllocError;
use base64::engine::general_purpose::STANDARD;
use sshkey_base::{Bytes, Error, Result, Text, encoding};
use sshkey_entries::split_pattern;
use sshkey_public::is_one_line;
use std::alloc::Global;

/// The bytes of a salt that OpenSSH takes.
const SALT_LEN: usize = 20;

/// The hosts of a line (sshd(8), "SSH_KNOWN_HOSTS FILE FORMAT").
#[derive(Debug, Drop, PartialEq, Eq)]
pub enum HostPatterns {
    /// Patterns of names.
    Patterns(Vec<Text>),
    /// The HMAC-SHA1 of a host's name, with a salt as its key.
    HashedName {
        /// The salt, the key of the HMAC. OpenSSH draws 20 bytes. Any number is read, but with
        /// another number the entry is for no host.
        salt: Bytes,
        /// The HMAC-SHA1 of the host's name, 20 bytes.
        hash: [u8; 20],
    },
}

impl HostPatterns {
    /// The hosts of a text: after `|1|` a salt and a hash in padded Base64 with a `|` between, else
    /// patterns between commas, a last empty one left out.
    ///
    /// Unless memory runs out, it fails exactly if the text is none: `FormatEncoding` where it is
    /// empty, or has no `|` after the salt, `Base64` where a word is no canonical Base64, and
    /// `Length` for a hash of other than 20 bytes. A text that fails with `FormatEncoding` takes no
    /// memory.
    pub fn from_text(alloc: Global, text: &str) -> Result<HostPatterns>
        ensures reads { ReadsEntry hosts_of IsHosts text.now result }
        ensures fault { IfErr result (RefusesHosts text.now) }
    {
        if let Some(hashed) = text.strip_prefix("|1|") {
            return HostPatterns::from_hashed(alloc, hashed);
        }
        if text.is_empty() {
            return Err(Error::FormatEncoding);
        }
        Ok(HostPatterns::Patterns(patterns_of(alloc, text)?))
    }

    /// The salt and the hash after the mark.
    fn from_hashed(alloc: Global, text: &str) -> Result<HostPatterns>
        ensures { ReadsHashed text.now result }
    {
        let Some((salt, hash)) = text.split_once('|') else {
            return Err(Error::FormatEncoding);
        };
        let salt = decode_word(alloc, salt)?;
        let hash = decode_word(alloc, hash)?;
        let Ok(hash) = <[u8; 20]>::try_from(hash.as_slice()) else {
            return Err(Error::Encoding(encoding::Error::Length));
        };
        Ok(HostPatterns::HashedName {
            salt: Bytes::new(salt),
            hash,
        })
    }

    /// The hosts as they are written: patterns joined by commas, or the salt and the hash in Base64
    /// after `|1|`. Fails only when out of memory.
    pub fn to_string(&self, alloc: Global) -> Result<String>
        ensures text { IfOk result (λ s. string_bytes s ≡ hosts_text (hosts_of self.now)) }
        ensures memory { IfErr result (λ e. e ≡ wide.Memory) }
    {
        let mut text = String::new(alloc);
        self.push_to(&mut text)?;
        Ok(text)
    }

    /// Adds the hosts as they are written. Fails only when out of memory.
    pub(crate) fn push_to(&self, text: &mut String) -> Result<()>
        ensures text { OnOk result
            (string_bytes text.new ≡ string_bytes text.old ++ hosts_text (hosts_of self.now)) }
        ensures memory { IfErr result (λ e. e ≡ wide.Memory) }
    {
        match self {
            HostPatterns::Patterns(patterns) => push_joined(patterns, text),
            HostPatterns::HashedName { salt, hash } => {
                text.push_str("|1|")?;
                STANDARD.encode_string(salt.as_slice(), text)?;
                text.push('|')?;
                STANDARD.encode_string(hash, text)?;
                Ok(())
            }
        }
    }

    /// Whether `to_string` writes one line: no pattern holds a line feed or a carriage return. Does
    /// not allocate.
    pub fn is_one_line(&self) -> bool
        ensures { IsTrue result ↔ IsOneLine (hosts_text (hosts_of self.now)) }
    {
        match self {
            HostPatterns::Patterns(patterns) => are_one_line(patterns),
            HostPatterns::HashedName { .. } => true,
        }
    }

    /// Whether the hosts are for a host at a port (sshd(8), "SSH_KNOWN_HOSTS FILE FORMAT").
    ///
    /// The name that is looked up is the host's in small letters, and at another port than 22 it is
    /// `[host]:port`. In patterns a `*` stands for any characters, a `?` for one, and a letter for
    /// itself in either case: one of them has to match, and none after a `!` (ssh_config(5),
    /// "PATTERNS"). As in OpenSSH, patterns are for no host where one of them has 1,023 bytes or
    /// more, the `!` aside, or the first begins with a `|`. A hashed name is compared with the HMAC
    /// of the name under its salt; one whose salt does not have 20 bytes is for no host.
    ///
    /// Of a host at another port ssh(1) asks, where nothing is known of it, about the bare name as
    /// well: that is port 22 here.
    ///
    /// Fails only when out of memory, which the name takes.
    pub fn matches<H: HostHasher>(
        &self,
        alloc: Global,
        host: &str,
        port: u16,
        hmac: &H,
    ) -> Result<bool>
        ensures answer { IfOk result (λ yes. IsTrue yes ↔
            AreFor (H.hmac hmac.now) (known_name host.now port) (hosts_of self.now)) }
        ensures memory { IfErr result (λ e. e ≡ wide.Memory) }
    {
        let name = known_name(alloc, host, port)?;
        Ok(self.are_for(name.as_str(), hmac))
    }

    /// Whether they are for that name.
    pub(crate) fn are_for<H: HostHasher>(&self, name: &str, hmac: &H) -> bool
        ensures { IsTrue result ↔ AreFor (H.hmac hmac.now) name.now (hosts_of self.now) }
    {
        match self {
            HostPatterns::Patterns(patterns) => are_named(patterns, name),
            HostPatterns::HashedName { salt, hash } => {
                salt.as_slice().len() == SALT_LEN
                    && hmac.hash(salt.as_slice(), name.as_bytes()) == *hash
            }
        }
    }

    /// The same in memory of its own. Fails only when out of memory.
    pub fn try_clone(&self, alloc: Global) -> Result<HostPatterns>
        ensures value { IfOk result (λ h. hosts_of h ≡ hosts_of self.now) }
        ensures memory { IfErr result (λ e. e ≡ wide.Memory) }
    {
        match self {
            HostPatterns::Patterns(patterns) => {
                Ok(HostPatterns::Patterns(copied(alloc, patterns)?))
            }
            HostPatterns::HashedName { salt, hash } => Ok(HostPatterns::HashedName {
                salt: salt.try_clone(alloc)?,
                hash: *hash,
            }),
        }
    }
}

/// The bytes that the word spells in padded Base64; no other word spells them.
fn decode_word(alloc: Global, word: &str) -> Result<Vec<u8>>
    ensures { ReadsBase64 word.now result }
{
    match STANDARD.decode(alloc, word.as_bytes()) {
        Ok(bytes) => Ok(bytes),
        Err(DecodeAllocError::OutOfMemory) => Err(Error::Memory),
        Err(DecodeAllocError::DecodeError(_)) => Err(Error::Encoding(encoding::Error::Base64)),
    }
}

/// The patterns between commas.
fn patterns_of(alloc: Global, text: &str) -> Result<Vec<Text>>
    ensures { ReadsPatterns text.now result }
{
    let mut found = Vec::new(alloc);
    let mut rest = text;
    'patterns: while !rest.is_empty() {
        let (pattern, more) = split_pattern(rest);
        found.push(Text::new(String::from_str(alloc, pattern)?))?;
        rest = more;
    }
    Ok(found)
}

/// Adds the patterns, joined by commas.
fn push_joined(patterns: &[Text], text: &mut String) -> Result<()>
    ensures text { OnOk result
        (string_bytes text.new ≡ string_bytes text.old ++ join_with_byte comma patterns.now) }
    ensures memory { IfErr result (λ e. e ≡ wide.Memory) }
{
    for (index, pattern) in patterns.iter().enumerate() {
        if index > 0 {
            text.push(',')?;
        }
        text.push_str(pattern.as_str())?;
    }
    Ok(())
}

/// The texts in memory of their own.
fn copied(alloc: Global, texts: &[Text]) -> Result<Vec<Text>>
    ensures copy { IfOk result (λ v. v.items ≡ texts.now) }
    ensures memory { IfErr result (λ e. e ≡ wide.Memory) }
{
    let mut copies = Vec::new(alloc);
    for text in texts {
        copies.push(text.try_clone(alloc)?)?;
    }
    Ok(copies)
}

/// Whether no text holds a line end.
fn are_one_line(texts: &[Text]) -> bool
    ensures { IsTrue result ↔ All IsOneLine texts.now }
{
    for text in texts {
        if !is_one_line(text.as_str()) {
            return false;
        }
    }
    true
}
