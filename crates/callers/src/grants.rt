//! How it is written whom a text lets in, and to what.

use crate::user_key::Admission;
use login_terms::{Permissions, Permit};
use std::io::{self, Write};
use user_keys::{Certified, Reason, UserGrant, UserRefusal};

/// Writes what a login is bound to, or why it is refused.
pub(crate) fn show<W: Write>(output: &mut W, admission: &Admission) -> io::Result<()> {
    match admission {
        Ok(grant) => {
            write!(output, "{}", grant.line)?;
            show_grant(output, grant)?;
            writeln!(output)
        }
        Err(refusal) => show_refusal(output, refusal),
    }
}

/// Writes what a login is bound to, without the line that lets it in.
pub(crate) fn show_grant<W: Write>(output: &mut W, grant: &UserGrant) -> io::Result<()> {
    let terms = &grant.terms;
    write!(output, " command=")?;
    if let Some(command) = terms.shown_command() {
        write!(output, "x")?;
        show_text(output, command)?;
    }
    show_permissions(output, &terms.permissions)?;
    write!(output, " open=")?;
    show_permits(output, &terms.permit_open)?;
    write!(output, " listen=")?;
    show_permits(output, &terms.permit_listen)?;
    write!(output, " environment=")?;
    show_texts(output, &terms.environment)?;
    write!(output, " tunnel=")?;
    if let Some(device) = terms.tunnel {
        write!(output, "{device}")?;
    }
    let touch = if terms.touch_required { "t" } else { "" };
    let verify = if terms.verify_required { "v" } else { "" };
    write!(output, " asks={touch}{verify} until=")?;
    if let Some(last) = terms.expires {
        write!(output, "{}-{}", last.first, last.last)?;
    }
    match &grant.certified {
        Some(certified) => show_certified(output, certified),
        None => Ok(()),
    }
}

fn show_certified<W: Write>(output: &mut W, certified: &Certified) -> io::Result<()> {
    write!(output, " serial={} id=", certified.serial)?;
    show_text(output, &certified.key_id)?;
    write!(output, " authority={}", certified.authority)
}

/// A letter for each thing that is permitted.
fn show_permissions<W: Write>(output: &mut W, may: &Permissions) -> io::Result<()> {
    let ports = if may.port_forwarding { "p" } else { "" };
    let agent = if may.agent_forwarding { "a" } else { "" };
    let x11 = if may.x11_forwarding { "x" } else { "" };
    let pty = if may.pty { "t" } else { "" };
    let user_rc = if may.user_rc { "r" } else { "" };
    let tunnels = if may.tunnels { "yes" } else { "no" };
    write!(
        output,
        " tunnels={tunnels} may={ports}{agent}{x11}{pty}{user_rc}"
    )
}

fn show_permits<W: Write>(output: &mut W, permits: &[Permit]) -> io::Result<()> {
    let mut between = "";
    for permit in permits {
        write!(output, "{between}")?;
        show_text(output, &permit.host)?;
        match permit.port {
            Some(port) => write!(output, "/{port}")?,
            None => write!(output, "/*")?,
        }
        between = ",";
    }
    Ok(())
}

fn show_texts<W: Write>(output: &mut W, texts: &[String]) -> io::Result<()> {
    let mut between = "";
    for text in texts {
        write!(output, "{between}")?;
        show_text(output, text)?;
        between = ",";
    }
    Ok(())
}

/// The text in hexadecimal digits.
fn show_text<W: Write>(output: &mut W, text: &str) -> io::Result<()> {
    for byte in text.as_bytes() {
        write!(output, "{byte:02x}")?;
    }
    Ok(())
}

fn show_refusal<W: Write>(output: &mut W, refusal: &UserRefusal) -> io::Result<()> {
    match refusal {
        UserRefusal::NotListed => writeln!(output, "no: not listed"),
        UserRefusal::NotAllowed { line, reason } => {
            writeln!(output, "no: not allowed by line {line}, {}", why(*reason))
        }
        UserRefusal::Unclear { line } => writeln!(output, "no: line {line} cannot be told"),
        UserRefusal::UnacceptedKey => writeln!(output, "no: unaccepted key"),
        UserRefusal::Revoked => writeln!(output, "no: revoked"),
        UserRefusal::Certificate(refusal) => writeln!(output, "no: certificate, {refusal:?}"),
        UserRefusal::Memory => writeln!(output, "out of memory"),
    }
}

/// Why a line refuses.
pub(crate) fn why(reason: Reason) -> &'static str {
    match reason {
        Reason::Expired => "expired",
        Reason::MisplacedOption => "misplaced option",
        Reason::Elsewhere => "elsewhere",
        Reason::Command => "command",
        Reason::Principals => "principals",
    }
}
