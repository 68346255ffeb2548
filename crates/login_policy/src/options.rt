//! The options that the policy knows, and the values that sshd(8) reads of them.

ghost use Rattle.std.specs.Prelude.{◌≡◌, ◌↔◌, IsTrue, All, bytes_eq, map};
ghost use Rattle.std.specs.List.{list_any};
ghost use Rattle.sshkey_model.specs.OptionMaps.{value_of};
ghost use Rattle.sshkey_cert_values.specs.CertificateFields.{options_of};
ghost use Rattle.login_policy.specs.KnownOptions.{IsArgument, IsEmptyIfFlag, IsKnownOption, IsPlainExtension, flags, source_address};
ghost use Rattle.login_policy.specs.Logins.{IsAllowedFrom};

use crate::client::Client;
use openssh_limits::openssh_reads_text;
use sshkey_cert_values::OptionsMap;
use sshkey_matching::{is_source_list, may_come_from};

/// The one command that may run, whatever the client asks for.
pub(crate) const FORCE_COMMAND: &str = "force-command";

/// The networks that a login may come from.
const SOURCE_ADDRESS: &str = "source-address";

/// That a security key has to have verified its user.
pub(crate) const VERIFY_REQUIRED: &str = "verify-required";

/// That nobody has to have touched a security key.
pub(crate) const NO_TOUCH_REQUIRED: &str = "no-touch-required";

/// Whether the policy knows each of the critical options, and its value is one that sshd reads.
/// Does not allocate.
pub(crate) fn are_known(options: &OptionsMap) -> bool
    ensures { IsTrue result ↔ All IsKnownOption (options_of options.now) }
{
    for (name, value) in options.iter() {
        if !is_known(name, value) {
            return false;
        }
    }
    true
}

/// Whether the critical options let a client in from there: from anywhere if they list no
/// addresses or the caller judges, and else from one that is known and in the list. Does not
/// allocate.
pub(crate) fn is_allowed_from(options: &OptionsMap, client: Client) -> bool
    ensures { IsTrue result
        ↔ IsAllowedFrom (value_of source_address (options_of options.now)) client }
{
    let list = options.get(SOURCE_ADDRESS);
    match client {
        Client::At(address) => may_come_from(list, address),
        Client::Unknown => list.is_none(),
        Client::LeftToCaller => true,
    }
}

/// Whether no name of an extension has a byte 0, and nothing stands in those that are flags. Does
/// not allocate.
pub(crate) fn are_plain(extensions: &OptionsMap) -> bool
    ensures { IsTrue result ↔ All IsPlainExtension (options_of extensions.now) }
{
    for (name, value) in extensions.iter() {
        if !is_plain(name, value) {
            return false;
        }
    }
    true
}

/// Whether the policy knows a critical option of that name, and sshd reads the value.
fn is_known(name: &str, value: &str) -> bool
    ensures { IsTrue result ↔ IsKnownOption (record { name = name.now; value = value.now }) }
{
    if is_same(name, FORCE_COMMAND) {
        return is_argument(value);
    }
    if is_same(name, SOURCE_ADDRESS) {
        return is_source_list(value);
    }
    if is_same(name, VERIFY_REQUIRED) {
        return value.is_empty();
    }
    false
}

/// Whether it can be a command: it is not empty, and sshd reads no byte 0.
fn is_argument(value: &str) -> bool
    ensures { IsTrue result ↔ IsArgument value.now }
{
    !value.is_empty() && openssh_reads_text(value)
}

/// Whether the name has no byte 0, and nothing stands in the value if it is that of a flag.
fn is_plain(name: &str, value: &str) -> bool
    ensures { IsTrue result
        ↔ IsPlainExtension (record { name = name.now; value = value.now }) }
{
    openssh_reads_text(name) && is_empty_if_flag(name, value)
}

/// Whether nothing stands in the value, if the name is that of a flag.
fn is_empty_if_flag(name: &str, value: &str) -> bool
    ensures { IsTrue result
        ↔ IsEmptyIfFlag (record { name = name.now; value = value.now }) }
{
    if is_flag(name) {
        return value.is_empty();
    }
    true
}

/// Whether it names an extension that is a flag: sshd reads its name alone.
fn is_flag(name: &str) -> bool
    ensures { result ≡ list_any (bytes_eq name.now) flags }
{
    is_among(
        name,
        &[
            "permit-X11-forwarding",
            "permit-agent-forwarding",
            "permit-port-forwarding",
            "permit-pty",
            "permit-user-rc",
            NO_TOUCH_REQUIRED,
        ],
    )
}

/// Whether the name is one of these.
fn is_among(name: &str, names: &[&str]) -> bool
    ensures { result ≡ list_any (bytes_eq name.now) (map (λ n. n.now) names.now) }
{
    names.iter().any(|other| name == *other)
}

/// Whether both are the same text.
fn is_same(text: &str, other: &str) -> bool
    ensures { IsTrue result ↔ (text.now ≡ other.now) }
{
    text == other
}
