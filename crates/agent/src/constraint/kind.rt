//! The first byte of a constraint.

ghost use Rattle.agent.specs.Records.{kind_from};

use crate::kind::Kind;
use crate::numbers::{CONSTRAIN_CONFIRM, CONSTRAIN_EXTENSION, CONSTRAIN_LIFETIME};
use ssh_key::{Error, Result};

/// Which constraint it is (draft-miller-ssh-agent, section 5.2).
pub(crate) enum ConstraintKind {
    /// `SSH_AGENT_CONSTRAIN_LIFETIME`.
    Lifetime,
    /// `SSH_AGENT_CONSTRAIN_CONFIRM`.
    Confirm,
    /// `SSH_AGENT_CONSTRAIN_EXTENSION`.
    Extension,
}

/// The constraint of that number. Fails with `FormatEncoding` where it has none.
impl Kind for ConstraintKind {
    ghost kind_from = { kind_from };

    fn from_number(number: u8) -> Result<ConstraintKind> {
        match number {
            CONSTRAIN_LIFETIME => Ok(ConstraintKind::Lifetime),
            CONSTRAIN_CONFIRM => Ok(ConstraintKind::Confirm),
            CONSTRAIN_EXTENSION => Ok(ConstraintKind::Extension),
            _ => Err(Error::FormatEncoding),
        }
    }
}
