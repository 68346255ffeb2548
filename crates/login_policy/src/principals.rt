//! Whom a certificate is for.

ghost use Rattle.std.specs.Prelude.{◌↔◌, IsTrue, map, string_bytes};
ghost use Rattle.login_policy.specs.Logins.{AreForUser};

use openssh_limits::openssh_reads_principals;

/// Whether the user has a name, and the principals are some, such as sshd(8) reads. Does not
/// allocate.
pub(crate) fn are_for(names: &[String], user: &str) -> bool
    ensures { IsTrue result ↔ AreForUser user.now (map string_bytes names.now) }
{
    if user.is_empty() {
        return false;
    }
    if names.is_empty() {
        return false;
    }
    openssh_reads_principals(names)
}
