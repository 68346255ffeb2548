//! What a server asks once the client is let in.

ghost use Rattle.std.specs.Prelude.{◌≡◌, ◌↔◌, IsTrue, map, option_map};
ghost use Rattle.std.specs.List.{Any};
ghost use Rattle.login_terms.specs.Questions.{Listens, MayListen, MayOpen, Opens, runs};
ghost use Rattle.login_terms.specs.Options.{terms_of};
ghost use Rattle.login_terms.specs.Values.{permit_of};

use crate::matching::{listens, opens};
use crate::permits::Permit;
use crate::terms::Terms;

impl Terms {
    /// Whether the client may have a port forwarded to that host and port ("direct-tcpip" of
    /// RFC 4254, section 7.2): forwarding is permitted, and the line has no `permitopen`, or one
    /// for them. Hosts are compared byte by byte, and nobody looks an address up; `*` is any host.
    /// There is no port above 65,535. Does not allocate.
    pub fn may_open(&self, host: &str, port: u32) -> bool
        ensures { IsTrue result ↔ MayOpen (terms_of self.now) host.now port }
    {
        self.permissions.port_forwarding
            && port <= u32::from(u16::MAX)
            && (self.permit_open.is_empty() || is_opened(&self.permit_open, host, port))
    }

    /// Whether the client may have the server listen at that host and port ("tcpip-forward" of
    /// RFC 4254, section 7.1): forwarding is permitted, and the line has no `permitlisten`, or one
    /// for them. Its host is a pattern, which the client's has to match in small letters, as it
    /// stands in the request: an empty host, `localhost` and `127.0.0.1` are three. Port 0, by
    /// which the server is to choose one, is permitted where any port is. There is none above
    /// 65,535. Does not allocate.
    pub fn may_listen(&self, host: &str, port: u32) -> bool
        ensures { IsTrue result ↔ MayListen (terms_of self.now) host.now port }
    {
        self.permissions.port_forwarding
            && port <= u32::from(u16::MAX)
            && (self.permit_listen.is_empty() || is_listened(&self.permit_listen, host, port))
    }

    /// What runs where the client asks for that command, or for a shell (none): the line's command,
    /// which may be empty, or else what the client asks for. Where none is given, the user's shell
    /// runs as a login shell, and what is given is run by that shell's `-c`. Does not allocate.
    pub fn runs<'a>(&'a self, asked: Option<&'a [u8]>) -> Option<&'a [u8]>
        ensures { option_map (λ c. c.now) result
            ≡ runs (terms_of self.now) (option_map (λ c. c.now) asked.entry) }
    {
        match &self.command {
            Some(command) => Some(command.as_bytes()),
            None => asked,
        }
    }

    /// The line's command, to be shown or compared: it may be empty. What runs `runs` says. Does not
    /// allocate.
    pub fn shown_command(&self) -> Option<&str>
        ensures { option_map (λ c. c.now) result ≡ (terms_of self.now).command }
    {
        self.command.as_deref()
    }
}

/// Whether one of them stands for the host and the port.
fn is_opened(permits: &[Permit], host: &str, port: u32) -> bool
    ensures { IsTrue result
        ↔ Any (λ p. Opens p.host p.port host.now port) (map permit_of permits.now) }
{
    for permit in permits {
        if opens(permit.host.as_str(), permit.port, host, port) {
            return true;
        }
    }
    false
}

/// The same of where may be listened.
fn is_listened(permits: &[Permit], host: &str, port: u32) -> bool
    ensures { IsTrue result
        ↔ Any (λ p. Listens p.host p.port host.now port) (map permit_of permits.now) }
{
    for permit in permits {
        if listens(permit.host.as_str(), permit.port, host, port) {
            return true;
        }
    }
    false
}
