//! What is shown of a certificate.

ghost use Rattle.std.specs.Prelude.{◌≡◌, IfOk, None, map, string_bytes};
ghost use Rattle.sshkey_keys.specs.Keys.{key_of};
ghost use Rattle.sshkey_cert_values.specs.CertificateFields.{type_of, options_of};
ghost use Rattle.sshkey_cert.specs.Certificates.{certificate_of};
ghost use Rattle.sshkey_tool.specs.Lines.{MakesLines, SaysAllowed, end_text, field_lines, option_line, principal_lines, subject_lines, type_word, window_lines};
ghost use Rattle.sshkey_tool.specs.Outcomes.{ShowsCertificate, ShowsAuthority};

use sshkey_base::Error;
use sshkey_cert::Certificate;
use sshkey_cert_values::{CertType, FOREVER, OptionsMap};
use sshkey_keys::KeyData;
use sshkey_public::PublicKey;
use std::alloc::{AllocError, Global};

/// The fields of a certificate in lines, and where a principal is wanted, whether it is allowed.
pub(crate) fn shown_of_certificate(
    alloc: Global,
    wanted: Option<&str>,
    certificate: &Certificate,
) -> Result<String, Error>
    ensures { ShowsCertificate wanted.entry (certificate_of certificate.now) result }
{
    let mut lines = certificate_lines(alloc, certificate)?;
    if let Some(principal) = wanted {
        let line = allows_line(certificate, principal);
        lines.push_str(line)?;
        lines.push('\n')?;
    }
    Ok(lines)
}

/// Whether the certificate allows that principal.
fn allows_line(certificate: &Certificate, principal: &str) -> &'static str
    ensures { SaysAllowed (certificate_of certificate.now) principal.now result.now }
{
    if certificate.allows_principal(principal) {
        "allows yes"
    } else {
        "allows no"
    }
}

/// The lines of a certificate.
fn certificate_lines(alloc: Global, certificate: &Certificate) -> Result<String, Error>
    ensures { ShowsCertificate None (certificate_of certificate.now) result }
{
    let fields = field_lines(alloc, certificate)?;
    let principals = principal_lines(alloc, certificate.valid_principals())?;
    let critical = option_lines(alloc, "critical option", certificate.critical_options())?;
    let extensions = option_lines(alloc, "extension", certificate.extensions())?;
    let authority = authority_line(alloc, certificate.signature_key())?;
    Ok(format!(in alloc; "{fields}{principals}{critical}{extensions}ca {authority}\n")?)
}

/// The lines of what each certificate has once.
fn field_lines(alloc: Global, certificate: &Certificate) -> Result<String, AllocError>
    ensures { MakesLines (field_lines (certificate_of certificate.now)) result }
{
    let subject = subject_lines(alloc, certificate)?;
    let window = window_lines(alloc, certificate)?;
    format!(in alloc; "{subject}{window}")
}

/// The lines of the algorithm, the type, the serial number and the key id.
fn subject_lines(alloc: Global, certificate: &Certificate) -> Result<String, AllocError>
    ensures { MakesLines (subject_lines (certificate_of certificate.now)) result }
{
    let name = certificate.public_key().algorithm_name();
    let kind = type_word(certificate.cert_type());
    let serial = certificate.serial();
    let key_id = certificate.key_id();
    format!(in alloc; "algorithm {name}\ntype {kind}\nserial {serial}\nkey id {key_id}\n")
}

/// The lines of the window.
fn window_lines(alloc: Global, certificate: &Certificate) -> Result<String, AllocError>
    ensures { MakesLines (window_lines (certificate_of certificate.now)) result }
{
    let after = certificate.valid_after();
    let before = end_text(alloc, certificate.valid_before())?;
    format!(in alloc; "valid after {after}\nvalid before {before}\n")
}

/// The word for a type.
fn type_word(cert_type: CertType) -> &'static str
    ensures { result.now ≡ type_word (type_of cert_type) }
{
    match cert_type {
        CertType::User => "user",
        CertType::Host => "host",
    }
}

/// An end of validity in seconds, or `forever`.
fn end_text(alloc: Global, secs: u64) -> Result<String, AllocError>
    ensures { IfOk result (λ s. string_bytes s ≡ end_text secs) }
{
    if secs == FOREVER {
        String::from_str(alloc, "forever")
    } else {
        format!(in alloc; "{secs}")
    }
}

/// A line for each principal, or one for all of them.
fn principal_lines(alloc: Global, principals: &[String]) -> Result<String, AllocError>
    ensures { MakesLines (principal_lines (map string_bytes principals.now)) result }
{
    if principals.is_empty() {
        return String::from_str(alloc, "principals any\n");
    }
    let mut lines = String::new(alloc);
    for principal in principals {
        let line = format!(in alloc; "principal {principal}\n")?;
        lines.push_str(line.as_str())?;
    }
    Ok(lines)
}

/// A line for each option of that kind.
fn option_lines(alloc: Global, kind: &str, options: &OptionsMap) -> Result<String, AllocError>
    ensures { MakesLines (map (option_line kind.now) (options_of options.now)) result }
{
    let mut lines = String::new(alloc);
    for (name, value) in &options.0 {
        let line = format!(in alloc; "{kind} {name}={value}\n")?;
        lines.push_str(line.as_str())?;
    }
    Ok(lines)
}

/// The line of the key that signed, without a comment.
fn authority_line(alloc: Global, key: &KeyData) -> Result<String, Error>
    ensures { ShowsAuthority (key_of key.now) result }
{
    PublicKey::from_key_data(alloc, key.try_clone(alloc)?).to_openssh(alloc)
}
