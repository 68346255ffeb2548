//! known_hosts: which keys hosts have.

pub use sshkey_known_hosts::{
    Entry, HeldLine, HmacSha1, HostHasher, HostPatterns, KnownHosts, Marker, OpenSshKnownHosts,
    Verdict, authorities, hold_lines, key_verdict, texts_for, unreadable_line,
};
