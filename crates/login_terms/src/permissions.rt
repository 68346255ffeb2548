//! What a login may do beside running its command.

ghost use Rattle.std.specs.Prelude.{◌≡◌};
ghost use Rattle.login_terms.specs.Options.{all_permitted, none_permitted};

/// What a login may do beside running its command.
#[derive(Debug, Clone, Copy)]
pub struct Permissions {
    /// Forward ports.
    pub port_forwarding: bool,
    /// Forward an agent.
    pub agent_forwarding: bool,
    /// Forward X11.
    pub x11_forwarding: bool,
    /// Have a terminal.
    pub pty: bool,
    /// Run the user's `~/.ssh/rc`.
    pub user_rc: bool,
    /// Have a tunnel (tun(4)).
    pub tunnels: bool,
}

impl Permissions {
    /// All of it: what a line without options permits.
    pub fn all() -> Permissions
        ensures { result ≡ all_permitted }
    {
        Permissions {
            port_forwarding: true,
            agent_forwarding: true,
            x11_forwarding: true,
            pty: true,
            user_rc: true,
            tunnels: true,
        }
    }

    /// Nothing: what `restrict` leaves.
    pub fn none() -> Permissions
        ensures { result ≡ none_permitted }
    {
        Permissions {
            port_forwarding: false,
            agent_forwarding: false,
            x11_forwarding: false,
            pty: false,
            user_rc: false,
            tunnels: false,
        }
    }
}
