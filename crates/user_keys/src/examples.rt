//! Worked examples of the definitions, on both sides of each edge.
#![tactic(auto, unfolding(crate::specs::Computed::encode_symbols, crate::specs::Computed::without_front, crate::specs::Principals::after_last))]

ghost use Rattle.user_keys.specs.EdgeExamples.{AdmittedCertificates, AdmittedKeys, Breaks, FirstLets, FirstLines, HasNames, KeyNames, LinesOfPrincipals, OddLines, OptionsOfLines, PassedOver, Places, RefusedLines, Spelled};
ghost use Rattle.user_keys.specs.Examples.{Listed, Marks, Merged, Names, Times, Together, White};
ghost use Rattle.user_keys.specs.LoginExamples.{Entries, FirstRefused, LetsCertificate, LetsKey, LineEnds, MayLetIn, OddEntries, Parts, Restricted};
ghost use Rattle.user_keys.specs.TermExamples.{Asked, Certified, Commands, Decided, Expiry, From, Misplaced, Named, Permitted, PrincipalLines, Principals, Strictest};

/// Until when a line counts.
pub fn times()
    ensures { Times }
{}

/// What follows from several answers.
pub fn together()
    ensures { Together }
{}

/// The marks of a key.
pub fn marks()
    ensures { Marks }
{}

/// White space within Base64.
pub fn white()
    ensures { White }
{}

/// Names that a certificate lists.
pub fn listed()
    ensures { Listed }
{}

/// What a line and a certificate say together.
pub fn merged()
    ensures { Merged }
{}

/// The names in lines of a file of principals.
pub fn names()
    ensures { Names }
{}

/// What a line says by its time.
pub fn expiry()
    ensures { Expiry }
{}

/// `principals` on the line of a key.
pub fn misplaced()
    ensures { Misplaced }
{}

/// Lines with and without `from`.
pub fn from()
    ensures { From }
{}

/// Whom a line and a certificate let in.
pub fn named()
    ensures { Named }
{}

/// What a certificate refuses.
pub fn certified()
    ensures { Certified }
{}

/// Touch and verification.
pub fn strictest()
    ensures { Strictest }
{}

/// What a certificate asks for.
pub fn asked()
    ensures { Asked }
{}

/// Commands of both.
pub fn commands()
    ensures { Commands }
{}

/// What both permit.
pub fn permitted()
    ensures { Permitted }
{}

/// Terms in a file of principals.
pub fn decided()
    ensures { Decided }
{}

/// Whose a name is.
pub fn principals()
    ensures { Principals }
{}

/// Lines of a file of principals.
pub fn principal_lines()
    ensures { PrincipalLines }
{}

/// The parts by which keys are sought.
pub fn parts()
    ensures { Parts }
{}

/// Where a line ends.
pub fn line_ends()
    ensures { LineEnds }
{}

/// Entries of a key.
pub fn entries()
    ensures { Entries }
{}

/// Entries that may be a key's.
pub fn odd_entries()
    ensures { OddEntries }
{}

/// Lines that let a key in.
pub fn lets_key()
    ensures { LetsKey }
{}

/// Lines that let a certificate in.
pub fn lets_certificate()
    ensures { LetsCertificate }
{}

/// Lines by which sshd may let a key in.
pub fn may_let_in()
    ensures { MayLetIn }
{}

/// The first line that refuses.
pub fn first_refused()
    ensures { FirstRefused }
{}

/// What each sshd makes of `restrict`.
pub fn restricted()
    ensures { Restricted }
{}

/// Which line is the first.
pub fn first_lines()
    ensures { FirstLines }
{}

/// By which line somebody is let in.
pub fn first_lets()
    ensures { FirstLets }
{}

/// Where lines and names end.
pub fn breaks()
    ensures { Breaks }
{}

/// Lines of principals.
pub fn lines_of_principals()
    ensures { LinesOfPrincipals }
{}

/// Options of these lines.
pub fn options_of_lines()
    ensures { OptionsOfLines }
{}

/// Where symbols stand.
pub fn places()
    ensures { Places }
{}

/// Lines that spell a key.
pub fn spelled()
    ensures { Spelled }
{}

/// Names in front of a key.
pub fn key_names()
    ensures { KeyNames }
{}

/// Where such a name stands in a line.
pub fn has_names()
    ensures { HasNames }
{}

/// Lines that are no entries.
pub fn odd_lines()
    ensures { OddLines }
{}

/// Lines that are passed over.
pub fn passed_over()
    ensures { PassedOver }
{}

/// Lines that refuse.
pub fn refused_lines()
    ensures { RefusedLines }
{}

/// Keys that let somebody in.
pub fn admitted_keys()
    ensures { AdmittedKeys }
{}

/// Certificates that let somebody in.
pub fn admitted_certificates()
    ensures { AdmittedCertificates }
{}
