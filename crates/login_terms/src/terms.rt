//! What the options of a line say.

ghost use Rattle.std.specs.Prelude.{◌≡◌, option_map, string_bytes};
ghost use Rattle.login_terms.specs.Questions.{first_of};
ghost use Rattle.login_terms.specs.Options.{no_terms, terms_of};

use crate::permissions::Permissions;
use crate::permits::Permit;
use sshkey_matching::Span;
use std::alloc::Global;

/// What the options of a line of authorized_keys say (sshd(8), "AUTHORIZED_KEYS FILE FORMAT").
pub struct Terms {
    /// Whether the line's key signs certificates (`cert-authority`), and lets in by itself nobody.
    pub is_authority: bool,
    /// The one command that may run, whatever the client asks for. It may be empty: then nothing
    /// runs, and no shell. So it is not read beside what is asked for: `runs` says what runs.
    pub(crate) command: Option<String>,
    /// The names that a certificate may list in place of the user's, with commas between.
    pub principals: Option<String>,
    /// From where the key lets in.
    pub from: Option<String>,
    /// The last second at which the line counts, as far as it can be told: of two the earlier.
    pub expires: Option<Span>,
    /// `NAME=value`, each name once. Set none by default (sshd_config(5), PermitUserEnvironment).
    pub environment: Vec<String>,
    /// Where ports may be forwarded to; anywhere if there are none. They count only where
    /// `permissions` has `port_forwarding`.
    pub permit_open: Vec<Permit>,
    /// Where may be listened, as `permit_open`.
    pub permit_listen: Vec<Permit>,
    /// The device of tun(4) that the login is bound to: a number, or `ANY_TUNNEL`.
    pub tunnel: Option<u32>,
    /// What the login may do beside running its command.
    pub permissions: Permissions,
    /// Whether somebody has to have touched a security key.
    pub touch_required: bool,
    /// Whether a security key has to have verified its user.
    pub verify_required: bool,
}

/// By hand, so that who holds them lets them go by one call.
impl Drop for Terms {
    fn drop(self) {
        let Terms {
            is_authority: _,
            command: _,
            principals: _,
            from: _,
            expires: _,
            environment: _,
            permit_open: _,
            permit_listen: _,
            tunnel: _,
            permissions: _,
            touch_required: _,
            verify_required: _,
        } = self;
    }
}

impl Terms {
    /// What a line without options says.
    pub fn none(alloc: Global) -> Terms
        ensures { terms_of result ≡ no_terms }
    {
        Terms {
            is_authority: false,
            command: None,
            principals: None,
            from: None,
            expires: None,
            environment: Vec::new(alloc),
            permit_open: Vec::new(alloc),
            permit_listen: Vec::new(alloc),
            tunnel: None,
            permissions: Permissions::all(),
            touch_required: true,
            verify_required: false,
        }
    }

    /// The same where a certificate forces that command, or none, as well (PROTOCOL.certkeys,
    /// `force-command`): the line's command stays, if it has one.
    pub fn with_forced_command(mut self, command: Option<String>) -> Terms
        ensures { terms_of result ≡ record (terms_of self) {
          command = first_of (terms_of self).command (option_map string_bytes command);
        } }
    {
        if self.command.is_none() {
            self.command = command;
        }
        self
    }
}
