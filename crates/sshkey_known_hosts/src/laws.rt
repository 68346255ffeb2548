//! Laws: each stands for all values, and makes no call.

ghost use Rattle.sshkey_base.specs.Comparisons.{EqualMeanSame, IsEqualityAmong, IsEqualityOf};
ghost use Rattle.sshkey_known_hosts.specs.HostEntries.{IsOfKey, hosts_of, known_host_of, marker_of};
ghost use Rattle.sshkey_known_hosts.specs.Verdicts.{UnreadableHasLine, OneVerdict};

use crate::entry::Entry;
use crate::host_patterns::HostPatterns;
use crate::marker::Marker;
use crate::verdict::Verdict;
use sshkey_public::laws::compared_public_keys;

/// Two markers are equal exactly if they mean the same.
pub fn equal_markers()
    ensures { IsEqualityOf marker_of ⟦<Marker as PartialEq>⟧.eq }
{}

/// Two values of hosts are equal exactly if they mean the same: the same patterns in the same
/// order, or the same salt and hash.
pub fn equal_hosts()
    ensures { IsEqualityOf hosts_of ⟦<HostPatterns as PartialEq>⟧.eq }
{}

/// Two entries that are equal mean the same, and two of well-formed keys are equal exactly if they
/// do.
pub fn equal_known_hosts()
    ensures equal { IsEqualityAmong IsOfKey known_host_of ⟦<Entry as PartialEq>⟧.eq }
    ensures same { EqualMeanSame known_host_of ⟦<Entry as PartialEq>⟧.eq }
{
    equal_markers();
    equal_hosts();
    compared_public_keys();
}

/// Two verdicts are equal exactly if they are the same.
pub fn equal_verdicts()
    ensures { IsEqualityOf (λ verdict. verdict) ⟦<Verdict as PartialEq>⟧.eq }
{}

/// Of the verdicts on a key of a host one at most holds of the lines of a text.
pub fn one_verdict()
    ensures { OneVerdict }
{}

/// Where a text makes a verdict `Unreadable`, `unreadable_line` finds a line.
pub fn unreadable_lines()
    ensures { UnreadableHasLine }
{}
