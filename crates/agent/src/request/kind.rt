//! The first byte of a request.

ghost use Rattle.agent.specs.Requests.{kind_from};

use crate::kind::Kind;
use crate::numbers::{
    ADD_ID_CONSTRAINED, ADD_IDENTITY, LOCK, REMOVE_ALL_IDENTITIES, REMOVE_IDENTITY,
    REQUEST_IDENTITIES, SIGN_REQUEST, UNLOCK,
};
use ssh_key::{Error, Result};

/// Which request it is (draft-miller-ssh-agent, section 5.1).
pub(crate) enum RequestKind {
    /// `SSH_AGENTC_REQUEST_IDENTITIES`.
    RequestIdentities,
    /// `SSH_AGENTC_SIGN_REQUEST`.
    SignRequest,
    /// `SSH_AGENTC_ADD_IDENTITY`.
    AddIdentity,
    /// `SSH_AGENTC_REMOVE_IDENTITY`.
    RemoveIdentity,
    /// `SSH_AGENTC_REMOVE_ALL_IDENTITIES`.
    RemoveAllIdentities,
    /// `SSH_AGENTC_LOCK`.
    Lock,
    /// `SSH_AGENTC_UNLOCK`.
    Unlock,
    /// `SSH_AGENTC_ADD_ID_CONSTRAINED`.
    AddIdentityConstrained,
}

/// The request of that number. Fails with `FormatEncoding` where it has none.
impl Kind for RequestKind {
    ghost kind_from = { kind_from };

    fn from_number(number: u8) -> Result<RequestKind> {
        match number {
            REQUEST_IDENTITIES => Ok(RequestKind::RequestIdentities),
            SIGN_REQUEST => Ok(RequestKind::SignRequest),
            ADD_IDENTITY => Ok(RequestKind::AddIdentity),
            REMOVE_IDENTITY => Ok(RequestKind::RemoveIdentity),
            REMOVE_ALL_IDENTITIES => Ok(RequestKind::RemoveAllIdentities),
            LOCK => Ok(RequestKind::Lock),
            UNLOCK => Ok(RequestKind::Unlock),
            ADD_ID_CONSTRAINED => Ok(RequestKind::AddIdentityConstrained),
            _ => Err(Error::FormatEncoding),
        }
    }
}
