//! Worked examples of the definitions, on both sides of each edge.

ghost use Rattle.sshkey_matching.specs.PatternExamples.{Letters, PatternLists, Patterns};
ghost use Rattle.sshkey_matching.specs.AskedExamples.{Asked};
ghost use Rattle.sshkey_matching.specs.AddressExamples.{Characters, Clients, Hosts, Likeness, Lists, Seen, Sources, Texts};
ghost use Rattle.sshkey_matching.specs.HostExamples.{AskedNames, HostFaults, OneText};
ghost use Rattle.sshkey_matching.specs.TimeExamples.{Days, Edges, FirstTimes, Forms, LeapYears, Moments, Months, Seconds, Zones};

/// Which texts a pattern matches.
pub fn patterns()
    ensures { Patterns }
{}

/// Letters in either case, and what is none.
pub fn letters()
    ensures { Letters }
{}

/// Which texts a list of patterns is for.
pub fn pattern_lists()
    ensures { PatternLists }
{}

/// What is like an address.
pub fn likeness()
    ensures { Likeness }
{}

/// Which characters patterns have.
pub fn characters()
    ensures { Characters }
{}

/// Where a certificate lets its holder come from.
pub fn sources()
    ensures { Sources }
{}

/// Whom a list lets in.
pub fn clients()
    ensures { Clients }
{}

/// Which texts of addresses are read.
pub fn texts()
    ensures { Texts }
{}

/// Which names hosts have.
pub fn hosts()
    ensures { Hosts }
{}

/// Which lists are well-formed.
pub fn lists()
    ensures { Lists }
{}

/// As which address a client is seen.
pub fn seen()
    ensures { Seen }
{}

/// What OpenSSH's own code answered.
pub fn asked()
    ensures { Asked }
{}

/// Which addresses have one text.
pub fn one_text()
    ensures { OneText }
{}

/// What is asked about a host.
pub fn asked_names()
    ensures { AskedNames }
{}

/// What is wrong with a host.
pub fn host_faults()
    ensures { HostFaults }
{}

/// Leap years.
pub fn leap_years()
    ensures { LeapYears }
{}

/// The days of months.
pub fn months()
    ensures { Months }
{}

/// Days before a year, and before a month.
pub fn days()
    ensures { Days }
{}

/// What digits say.
pub fn moments()
    ensures { Moments }
{}

/// Where no zone is named, and where UTC is.
pub fn zones()
    ensures { Zones }
{}

/// The first and the last of each part.
pub fn edges()
    ensures { Edges }
{}

/// How many digits there are.
pub fn forms()
    ensures { Forms }
{}

/// The seconds that times mean.
pub fn seconds()
    ensures { Seconds }
{}

/// The first times that are read.
pub fn first_times()
    ensures { FirstTimes }
{}
