//! How an answer about a whole login is written.

use crate::grants::{show_grant, why};
use crate::publickey::Verdict;
use publickey_login::{PublickeyRefusal, Source};
use std::io::{self, Write};

/// Writes what is said of a login: to the query, what is asked, and what is granted or why nothing is.
pub(crate) fn show_verdict<W: Write>(output: &mut W, verdict: &Verdict) -> io::Result<()> {
    let offered = if verdict.is_offered { "y" } else { "n" };
    let authority = if verdict.asks_authority { "a" } else { "" };
    let client = if verdict.asks_client { "c" } else { "" };
    write!(output, "{offered} asks={authority}{client} ")?;
    match &verdict.decision {
        Ok(grant) => {
            show_source(output, grant.source)?;
            if !matches!(grant.source, Source::Authority) {
                write!(output, ":{}", grant.user.line)?;
            }
            show_grant(output, &grant.user)?;
            writeln!(output, " key={}", grant.key)
        }
        Err(refusal) => show_refusal(output, refusal),
    }
}

/// The text's kind and number.
fn show_source<W: Write>(output: &mut W, source: Source) -> io::Result<()> {
    match source {
        Source::AuthorizedKeys(number) => write!(output, "keys{number}"),
        Source::Authority => write!(output, "authority"),
        Source::Principals(number) => write!(output, "principals{number}"),
        Source::Command(number) => write!(output, "command{number}"),
    }
}

fn show_refusal<W: Write>(output: &mut W, refusal: &PublickeyRefusal) -> io::Result<()> {
    match refusal {
        PublickeyRefusal::NoKey(error) => writeln!(output, "no: no key, {error}"),
        PublickeyRefusal::UnacceptedKey => writeln!(output, "no: unaccepted key"),
        PublickeyRefusal::Revoked => writeln!(output, "no: revoked"),
        PublickeyRefusal::NotListed => writeln!(output, "no: not listed"),
        PublickeyRefusal::NotAllowed {
            source,
            line,
            reason,
        } => {
            write!(output, "no: not allowed by line ")?;
            show_source(output, *source)?;
            writeln!(output, ":{line}, {}", why(*reason))
        }
        PublickeyRefusal::Unclear { source, line } => {
            write!(output, "no: line ")?;
            show_source(output, *source)?;
            writeln!(output, ":{line} cannot be told")
        }
        PublickeyRefusal::Unreadable { source } => {
            write!(output, "no: ")?;
            show_source(output, *source)?;
            writeln!(output, " cannot be read")
        }
        PublickeyRefusal::Certificate(refusal) => {
            writeln!(output, "no: certificate, {refusal:?}")
        }
        PublickeyRefusal::Algorithm => writeln!(output, "no: algorithm"),
        PublickeyRefusal::Signature(refusal) => writeln!(output, "no: signature, {refusal:?}"),
        PublickeyRefusal::NoSignature(error) => writeln!(output, "no: no signature, {error}"),
        PublickeyRefusal::TooLong => writeln!(output, "no: too long"),
        PublickeyRefusal::NoFlags => writeln!(output, "no: no flags"),
        PublickeyRefusal::NotSigned => writeln!(output, "no: not signed"),
        PublickeyRefusal::Memory => writeln!(output, "out of memory"),
    }
}
