//! Worked examples of the definitions, on both sides of each edge.

ghost use Rattle.host_keys.specs.Examples.{AnswersGiven, Authorities, BothReasons, CertifiedKeys, Fields, FirstFields, FirstUnread, HeldLines, HostKeys, Names, Principals, Reasons, SignedKeys, Trust, Unaccepted, UnknownReasons, Ways};

/// By which name a host is asked about.
pub fn names()
    ensures { Names }
{}

/// Keys.
pub fn host_keys()
    ensures { HostKeys }
{}

/// Keys that sign for others.
pub fn authorities()
    ensures { Authorities }
{}

/// Keys that an authority has signed.
pub fn signed_keys()
    ensures { SignedKeys }
{}

/// Of which fields a certificate has to be.
pub fn fields()
    ensures { Fields }
{}

/// Keys that are not accepted.
pub fn unaccepted()
    ensures { Unaccepted }
{}

/// Whom it lists.
pub fn principals()
    ensures { Principals }
{}

/// By whom and when it counts.
pub fn trust()
    ensures { Trust }
{}

/// Keys that a certificate has, whoever signed it.
pub fn certified_keys()
    ensures { CertifiedKeys }
{}

/// By what a host that shows a certificate is known.
pub fn ways()
    ensures { Ways }
{}

/// What is answered.
pub fn answers()
    ensures { AnswersGiven }
{}

/// Why a host is refused.
pub fn reasons()
    ensures { Reasons }
{}

/// Why a certificate and its key are refused.
pub fn both_reasons()
    ensures { BothReasons }
{}

/// What ssh(1) does not read first.
pub fn first_unread()
    ensures { FirstUnread }
{}

/// Why a host that shows a certificate is not known.
pub fn unknown_reasons()
    ensures { UnknownReasons }
{}

/// Which field is wrong first.
pub fn first_fields()
    ensures { FirstFields }
{}

/// Lines that are held.
pub fn held_lines()
    ensures { HeldLines }
{}
