//! What is shown of a line.

ghost use Rattle.sshkey_tool.specs.Outcomes.{ShowsKey, ShowsText};
ghost use Rattle.sshkey_tool.specs.declared.command.Command.TheVariants as commands;

use crate::certificate::shown_of_certificate;
use crate::command::KeyCommand;
use sshkey_base::{Error, HashAlg};
use sshkey_cert::Certificate;
use sshkey_public::PublicKey;
use std::alloc::Global;

/// What the command shows of a key with its comment.
fn shown_of_key(alloc: Global, command: KeyCommand<'_>, key: &PublicKey) -> Result<String, Error>
    ensures { ShowsKey command.entry key.now result }
{
    match command {
        KeyCommand::Fingerprint => {
            let fingerprint = key.fingerprint(alloc, HashAlg::Sha256)?;
            Ok(format!(in alloc; "{fingerprint}\n")?)
        }
        KeyCommand::Art(header) => {
            let art = key
                .fingerprint(alloc, HashAlg::Sha256)?
                .to_randomart(alloc, header)?;
            Ok(format!(in alloc; "{art}\n")?)
        }
        KeyCommand::Normal => {
            let line = key.to_openssh(alloc)?;
            Ok(format!(in alloc; "{line}\n")?)
        }
    }
}

/// The same of the key in a line.
pub(crate) fn shown_of_key_line(
    alloc: Global,
    command: KeyCommand<'_>,
    text: &str,
) -> Result<String, Error>
    ensures { ShowsText (commands.Key command.entry) text.now result }
{
    let key = PublicKey::from_openssh(alloc, text)?;
    shown_of_key(alloc, command, &key)
}

/// What is shown of the certificate in a line.
pub(crate) fn shown_of_certificate_line(
    alloc: Global,
    wanted: Option<&str>,
    text: &str,
) -> Result<String, Error>
    ensures { ShowsText (commands.Certificate wanted.entry) text.now result }
{
    let certificate = Certificate::from_openssh(alloc, text)?;
    shown_of_certificate(alloc, wanted, &certificate)
}
