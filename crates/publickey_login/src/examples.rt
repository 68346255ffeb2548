//! Worked examples of who has signed, on both sides of each edge.
#![tactic(auto, unfolding(crate::specs::Sources::IsOfFirst, crate::specs::Sources::ArePassed))]

ghost use Rattle.publickey_login.specs.Examples.{Flagless, Flags, Left, Named, Signs};
ghost use Rattle.publickey_login.specs.LoginExamples.{Certificates, Keys, Logins, Refusals, Answered, Authorities, Counted, FirstTexts, Listed, OwnTerms, PassedTexts, Places, Required, Sources};
ghost use Rattle.publickey_login.specs.RefusalExamples.{DecidesAlone, Decisions, Ends, FirstRefusals, Offers, PrincipalRefusals, RefusedCertificates, RefusedKeys, UnreadTexts};

/// The names under which a key or a certificate signs.
pub fn named()
    ensures { Named }
{}

/// The flags that a transport tells.
pub fn flags()
    ensures { Flags }
{}

/// Whose flags are looked at.
pub fn flagless()
    ensures { Flagless }
{}

/// What is left to ask.
pub fn left()
    ensures { Left }
{}

/// What a client signs.
pub fn signs()
    ensures { Signs }
{}

/// Which of several texts counts.
pub fn first_texts()
    ensures { FirstTexts }
{}

/// Which texts are passed over.
pub fn passed_texts()
    ensures { PassedTexts }
{}

/// Where a client is.
pub fn places()
    ensures { Places }
{}

/// Whom a certificate lists.
pub fn listed()
    ensures { Listed }
{}

/// What a certificate says alone.
pub fn own_terms()
    ensures { OwnTerms }
{}

/// Whom an authority lets in.
pub fn authorities()
    ensures { Authorities }
{}

/// What is asked first.
pub fn sources()
    ensures { Sources }
{}

/// Whose certificates count.
pub fn counted()
    ensures { Counted }
{}

/// What is required of a security key.
pub fn required()
    ensures { Required }
{}

/// What counts as an answer.
pub fn answered()
    ensures { Answered }
{}

/// Keys that are granted nothing.
pub fn ungranted_keys()
    ensures { Keys }
{}

/// Certificates that are granted nothing.
pub fn ungranted_certificates()
    ensures { Certificates }
{}

/// Who does not log in.
pub fn no_logins()
    ensures { Logins }
{}

/// What refuses, and what is passed over.
pub fn refusals()
    ensures { Refusals }
{}

/// Which text that could not be read ends the search.
#[tactic(auto, unfolding(crate::specs::Stops::IsUnread))]
pub fn unread_texts()
    ensures { UnreadTexts }
{}

/// What is named that ends it.
pub fn ends()
    ensures { Ends }
{}

/// Which text refuses first.
pub fn first_refusals()
    ensures { FirstRefusals }
{}

/// Which text of principals refuses first.
pub fn principal_refusals()
    ensures { PrincipalRefusals }
{}

/// After which text no other of its like is asked.
pub fn decides_alone()
    ensures { DecidesAlone }
{}

/// Why keys are refused.
pub fn refused_keys()
    ensures { RefusedKeys }
{}

/// Why certificates are refused.
pub fn refused_certificates()
    ensures { RefusedCertificates }
{}

/// What may be offered.
pub fn offers()
    ensures { Offers }
{}

/// What the answers decide.
pub fn decisions()
    ensures { Decisions }
{}
