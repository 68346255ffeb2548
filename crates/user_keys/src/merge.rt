//! What a line and a certificate say together.

ghost use Rattle.std.specs.Prelude.{◌≡◌, Some, option_map, string_bytes};
ghost use Rattle.login_terms.specs.Options.{terms_of};
ghost use Rattle.sshkey_cert_values.specs.CertificateFields.{options_of};
ghost use Rattle.user_keys.specs.Certificates.{agree, both_permit, merged_with};

use crate::grant::{Certified, UserGrant};
use login_terms::Permissions;
use sshkey_cert_values::OptionsMap;

/// What a login by a certificate is bound to, which a line and the policy grant each. The commands
/// agree.
pub fn merged(first: UserGrant, login: login_policy::Grant) -> UserGrant
    ensures line { result.line ≡ first.line }
    ensures terms { terms_of result.terms ≡ merged_with (terms_of first.terms)
        (option_map string_bytes login.force_command) (options_of login.extensions)
        login.touch_required login.verify_required }
    ensures certified { result.certified ≡ Some (record {
      serial = login.serial;
      key_id = login.key_id;
      authority = login.authority;
    }) }
{
    let UserGrant {
        line,
        mut terms,
        certified: _,
    } = first;
    let login_policy::Grant {
        force_command,
        verify_required,
        touch_required,
        extensions,
        serial,
        key_id,
        authority,
    } = login;
    terms.permissions = both_permit(terms.permissions, &extensions);
    terms.touch_required = terms.touch_required || touch_required;
    terms.verify_required = terms.verify_required || verify_required;
    UserGrant {
        line,
        terms: terms.with_forced_command(force_command),
        certified: Some(Certified {
            serial,
            key_id,
            authority,
        }),
    }
}

/// Whether a line's command and that of a certificate are the same, where there are both.
pub(crate) fn agree(command: Option<&str>, other: Option<&str>) -> bool
    ensures { result ≡ agree (option_map (λ t. t.now) command.entry)
        (option_map (λ t. t.now) other.entry) }
{
    match (command, other) {
        (Some(command), Some(other)) => command == other,
        (None, _) | (_, None) => true,
    }
}

/// What a line and the extensions of a certificate both permit. Of tunnels no extension says
/// anything.
fn both_permit(line: Permissions, extensions: &OptionsMap) -> Permissions
    ensures { result ≡ both_permit line (options_of extensions.now) }
{
    Permissions {
        port_forwarding: line.port_forwarding && extensions.contains_key("permit-port-forwarding"),
        agent_forwarding: line.agent_forwarding
            && extensions.contains_key("permit-agent-forwarding"),
        x11_forwarding: line.x11_forwarding && extensions.contains_key("permit-X11-forwarding"),
        pty: line.pty && extensions.contains_key("permit-pty"),
        user_rc: line.user_rc && extensions.contains_key("permit-user-rc"),
        tunnels: line.tunnels,
    }
}
