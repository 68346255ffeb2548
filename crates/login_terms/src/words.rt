//! The names of options.

ghost use Rattle.sshkey_entries.specs.OptionItems.{FindsWord};
ghost use Rattle.login_terms.specs.Options.{words};

use sshkey_entries::find_word;

/// An option that is a flag.
#[derive(Clone, Copy)]
pub(crate) enum Flag {
    PortForwarding,
    AgentForwarding,
    X11Forwarding,
    Pty,
    UserRc,
    TouchRequired,
    VerifyRequired,
}

/// The name of an option.
#[derive(Clone, Copy)]
pub(crate) enum Word {
    Allow(Flag),
    Deny(Flag),
    Restrict,
    CertAuthority,
    Command,
    Principals,
    From,
    ExpiryTime,
    Environment,
    PermitOpen,
    PermitListen,
    Tunnel,
}

/// The options, and what names them.
const WORDS: [(&str, Word); 24] = [
    ("port-forwarding", Word::Allow(Flag::PortForwarding)),
    ("agent-forwarding", Word::Allow(Flag::AgentForwarding)),
    ("x11-forwarding", Word::Allow(Flag::X11Forwarding)),
    ("pty", Word::Allow(Flag::Pty)),
    ("user-rc", Word::Allow(Flag::UserRc)),
    ("touch-required", Word::Allow(Flag::TouchRequired)),
    ("verify-required", Word::Allow(Flag::VerifyRequired)),
    ("no-port-forwarding", Word::Deny(Flag::PortForwarding)),
    ("no-agent-forwarding", Word::Deny(Flag::AgentForwarding)),
    ("no-x11-forwarding", Word::Deny(Flag::X11Forwarding)),
    ("no-pty", Word::Deny(Flag::Pty)),
    ("no-user-rc", Word::Deny(Flag::UserRc)),
    ("no-touch-required", Word::Deny(Flag::TouchRequired)),
    ("no-verify-required", Word::Deny(Flag::VerifyRequired)),
    ("restrict", Word::Restrict),
    ("cert-authority", Word::CertAuthority),
    ("command", Word::Command),
    ("principals", Word::Principals),
    ("from", Word::From),
    ("expiry-time", Word::ExpiryTime),
    ("environment", Word::Environment),
    ("permitopen", Word::PermitOpen),
    ("permitlisten", Word::PermitListen),
    ("tunnel", Word::Tunnel),
];

/// Which option has the name, letters in either case.
pub(crate) fn word_of(name: &str) -> Option<Word>
    ensures { FindsWord words name.now result }
{
    find_word(&WORDS, name)
}
