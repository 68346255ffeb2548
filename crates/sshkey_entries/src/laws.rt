//! Laws over the definitions alone: each stands for all lines, and makes no call.

ghost use Rattle.sshkey_entries.specs.AuthorizedKeys.{IsAuthorizedKey};
ghost use Rattle.sshkey_entries.specs.KnownHosts.{IsHosts, IsKnownHost};
ghost use Rattle.sshkey_entries.specs.OpenSshLines.{IsAuthorizedLine, IsHostLine};
ghost use Rattle.sshkey_entries.specs.Laws.{EntriesDetermineValues, OneEnd, OtherLinesAreNone, OtherNamesAreApart, ReadingsAreApart, OneKeyOptions};

/// A line is one entry of authorized_keys at most.
pub fn one_authorized_key()
    ensures { EntriesDetermineValues IsAuthorizedKey }
{}

/// No line is read with options and without: of the two ways to read a line with three spaces or
/// more, one at most holds.
pub fn readings_apart()
    ensures { ReadingsAreApart }
{}

/// A text is one value of hosts at most.
pub fn one_hosts()
    ensures { EntriesDetermineValues IsHosts }
{}

/// A line is one entry of known_hosts at most.
pub fn one_known_host()
    ensures { EntriesDetermineValues IsKnownHost }
{}

/// OpenSSH ends the options of a line at one place at most.
pub fn one_end()
    ensures { OneEnd }
{}

/// A line is one entry of authorized_keys at most, as OpenSSH reads it.
pub fn one_authorized_line()
    ensures { EntriesDetermineValues IsAuthorizedLine }
{}

/// A line is one entry of known_hosts at most, as OpenSSH reads it.
pub fn one_host_line()
    ensures { EntriesDetermineValues IsHostLine }
{}

/// A text is one list of options at most.
pub fn one_key_options()
    ensures { OneKeyOptions }
{}

/// No key begins with the name of a kind that is none here, and a line of known_hosts with a key of
/// such a kind is an entry of no key: it hides no revocation of one.
pub fn other_keys_apart()
    ensures names { OtherNamesAreApart }
    ensures lines { OtherLinesAreNone }
{}
