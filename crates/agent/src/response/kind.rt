//! The first byte of a response.

ghost use Rattle.agent.specs.Responses.{kind_from};

use crate::kind::Kind;
use crate::numbers::{
    EXTENSION_FAILURE, EXTENSION_RESPONSE, FAILURE, IDENTITIES_ANSWER, SIGN_RESPONSE, SUCCESS,
};
use ssh_key::{Error, Result};

/// Which response it is (draft-miller-ssh-agent, section 5.1).
pub(crate) enum ResponseKind {
    /// `SSH_AGENT_FAILURE`.
    Failure,
    /// `SSH_AGENT_SUCCESS`.
    Success,
    /// `SSH_AGENT_IDENTITIES_ANSWER`.
    IdentitiesAnswer,
    /// `SSH_AGENT_SIGN_RESPONSE`.
    SignResponse,
    /// `SSH_AGENT_EXTENSION_FAILURE`.
    ExtensionFailure,
    /// `SSH_AGENT_EXTENSION_RESPONSE`.
    ExtensionResponse,
}

/// The response of that number. Fails with `FormatEncoding` where it has none.
impl Kind for ResponseKind {
    ghost kind_from = { kind_from };

    fn from_number(number: u8) -> Result<ResponseKind> {
        match number {
            FAILURE => Ok(ResponseKind::Failure),
            SUCCESS => Ok(ResponseKind::Success),
            IDENTITIES_ANSWER => Ok(ResponseKind::IdentitiesAnswer),
            SIGN_RESPONSE => Ok(ResponseKind::SignResponse),
            EXTENSION_FAILURE => Ok(ResponseKind::ExtensionFailure),
            EXTENSION_RESPONSE => Ok(ResponseKind::ExtensionResponse),
            _ => Err(Error::FormatEncoding),
        }
    }
}
