//! What an authority may certify.

ghost use Rattle.std.specs.List.{list_all};
ghost use Rattle.std.specs.Prelude.{◌≡◌, ◌≢◌, ◌↔◌, ◌≤◌, ◌<◌, ◌+◌, ◌^◌, [], IfErr, IsTrue, All, length, map, string_bytes};
ghost use Rattle.ssh_key.specs.base.Judgements.{AcceptsExactly};
ghost use Rattle.authority.specs.Issuance.{all, IsAllowedName, IsWithinLimits, RefusesRequest, has_no_zero, is_allowed, is_listed};

use crate::keys::KeyKinds;
use crate::request::Request;
use ssh_key::certificate::{Field, MAX_SECS};
use ssh_key::{Error, Result};

/// How many principals sshd reads of a certificate.
const MOST_PRINCIPALS: usize = 256;

/// What may be asked for.
#[derive(Debug, Drop)]
pub struct Limits {
    /// The users whom a certificate may be for. What is not listed is not certified, nor is a name
    /// with a zero byte, which sshd does not read or takes for another user's.
    pub principals: Vec<String>,
    /// The extensions that a certificate may have, as `permit-pty`.
    pub extensions: Vec<String>,
    /// How many seconds a window may have, and how many seconds from now it may end at most.
    pub longest: u64,
    /// The kinds of key that may be certified.
    pub kinds: KeyKinds,
}

impl Limits {
    /// Returns the limits with these users and extensions, windows of at most `longest` seconds,
    /// and all kinds of key. Does not allocate.
    pub fn new(principals: Vec<String>, extensions: Vec<String>, longest: u64) -> Limits
        ensures principals { result.principals ≡ principals }
        ensures extensions { result.extensions ≡ extensions }
        ensures longest { result.longest ≡ longest }
        ensures kinds { result.kinds ≡ all }
    {
        Limits {
            principals,
            extensions,
            longest,
            kinds: KeyKinds::all(),
        }
    }

    /// Checks that the request is within the limits, at that time in seconds since 1970: its key is
    /// of one of `kinds`, and one that sshd(8) accepts. It is for 1 to 256 users, all listed, and
    /// each extension is listed. The key id, the users and the extensions have no zero byte. Its
    /// window has a second and no more than `longest`, is not over, and ends `longest` seconds from
    /// now or before. Does not allocate.
    ///
    /// Else `CertificateFieldInvalid`, with `PublicKey` for the key, `KeyId` for the key id,
    /// `ValidPrincipals` for the users, `Extensions` for the extensions and `ValidBefore` for the
    /// window, in that order.
    ///
    /// What sshd accepts `openssh_limits::openssh_accepts_key` says, where an RSA key has to have
    /// 2,048 bits. A point that is not on its curve, which sshd does not read, is the caller's to
    /// refuse. A key under a private-use name is never certified: in certificates that name may be
    /// of another kind of key.
    ///
    /// A window may begin before now, as that of `ssh-keygen -V -5m:+1h` does for machines whose
    /// clock is slow, and then these seconds count too: this example has 3,900.
    pub fn check(&self, request: &Request, unix_timestamp: u64) -> Result<()>
        ensures exactly { AcceptsExactly (IsWithinLimits self.now unix_timestamp request.now)
            result }
        ensures refused { IfErr result (RefusesRequest self.now unix_timestamp request.now) }
    {
        if !self.kinds.allow(&request.key) {
            return Err(Error::CertificateFieldInvalid(Field::PublicKey));
        }
        if !is_without_zero(request.key_id.as_str()) {
            return Err(Error::CertificateFieldInvalid(Field::KeyId));
        }
        if !self.allows_principals(&request.principals) {
            return Err(Error::CertificateFieldInvalid(Field::ValidPrincipals));
        }
        if !allows_each(&self.extensions, &request.extensions) {
            return Err(Error::CertificateFieldInvalid(Field::Extensions));
        }
        if !self.allows_window(request.valid_after, request.valid_before, unix_timestamp) {
            return Err(Error::CertificateFieldInvalid(Field::ValidBefore));
        }
        Ok(())
    }

    /// Whether there are names, up to 256, and each may be asked for.
    fn allows_principals(&self, names: &[String]) -> bool
        ensures { IsTrue result ↔ ((map string_bytes names.now ≢ [])
            × (length (map string_bytes names.now) ≤ 256)
            × All (IsAllowedName self.now.principals.items) (map string_bytes names.now)) }
    {
        if names.is_empty() {
            return false;
        }
        if names.len() > MOST_PRINCIPALS {
            return false;
        }
        allows_each(&self.principals, names)
    }

    /// Whether the window ends at a time, has a second and no more than `longest`, is not over, and
    /// ends `longest` seconds from now or before.
    fn allows_window(&self, valid_after: u64, valid_before: u64, unix_timestamp: u64) -> bool
        ensures { IsTrue result ↔ ((valid_before < 2 ^ 63) × (valid_after < valid_before)
            × (valid_before ≤ valid_after + self.now.longest) × (unix_timestamp < valid_before)
            × (valid_before ≤ unix_timestamp + self.now.longest)) }
    {
        valid_before <= MAX_SECS
            && valid_after < valid_before
            && valid_before - valid_after <= self.longest
            && unix_timestamp < valid_before
            && valid_before - unix_timestamp <= self.longest
    }
}

/// Whether each of the names may be asked for.
fn allows_each(listed: &[String], names: &[String]) -> bool
    ensures { result ≡ list_all (λ name. is_allowed listed.now (string_bytes name)) names.now }
{
    names.iter().all(|name| allows(listed, name.as_str()))
}

/// Whether the name is listed and has no zero byte.
fn allows(listed: &[String], name: &str) -> bool
    ensures { result ≡ is_allowed listed.now name.now }
{
    is_without_zero(name) && lists(listed, name)
}

/// Whether the name is listed.
fn lists(listed: &[String], name: &str) -> bool
    ensures { result ≡ is_listed listed.now name.now }
{
    listed.iter().any(|it| name == it.as_str())
}

/// Whether the text has no zero byte.
fn is_without_zero(text: &str) -> bool
    ensures { result ≡ has_no_zero text.now }
{
    text.as_bytes().iter().all(|byte| *byte != 0)
}
