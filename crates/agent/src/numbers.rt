//! The numbers of messages, each of one byte (draft-miller-ssh-agent, section 5.1).

/// `SSH_AGENT_FAILURE`.
pub(crate) const FAILURE: u8 = 5;

/// `SSH_AGENT_SUCCESS`.
pub(crate) const SUCCESS: u8 = 6;

/// `SSH_AGENTC_REQUEST_IDENTITIES`.
pub(crate) const REQUEST_IDENTITIES: u8 = 11;

/// `SSH_AGENT_IDENTITIES_ANSWER`.
pub(crate) const IDENTITIES_ANSWER: u8 = 12;

/// `SSH_AGENTC_SIGN_REQUEST`.
pub(crate) const SIGN_REQUEST: u8 = 13;

/// `SSH_AGENT_SIGN_RESPONSE`.
pub(crate) const SIGN_RESPONSE: u8 = 14;

/// `SSH_AGENTC_ADD_IDENTITY`.
pub(crate) const ADD_IDENTITY: u8 = 17;

/// `SSH_AGENTC_REMOVE_IDENTITY`.
pub(crate) const REMOVE_IDENTITY: u8 = 18;

/// `SSH_AGENTC_REMOVE_ALL_IDENTITIES`.
pub(crate) const REMOVE_ALL_IDENTITIES: u8 = 19;

/// `SSH_AGENTC_LOCK`.
pub(crate) const LOCK: u8 = 22;

/// `SSH_AGENTC_UNLOCK`.
pub(crate) const UNLOCK: u8 = 23;

/// `SSH_AGENTC_ADD_ID_CONSTRAINED`.
pub(crate) const ADD_ID_CONSTRAINED: u8 = 25;

/// `SSH_AGENT_EXTENSION_FAILURE`.
pub(crate) const EXTENSION_FAILURE: u8 = 28;

/// `SSH_AGENT_EXTENSION_RESPONSE` (draft-ietf-sshm-ssh-agent).
pub(crate) const EXTENSION_RESPONSE: u8 = 29;

/// `SSH_AGENT_CONSTRAIN_LIFETIME`, of a constraint (section 5.2).
pub(crate) const CONSTRAIN_LIFETIME: u8 = 1;

/// `SSH_AGENT_CONSTRAIN_CONFIRM`, of a constraint.
pub(crate) const CONSTRAIN_CONFIRM: u8 = 2;

/// `SSH_AGENT_CONSTRAIN_EXTENSION`, of a constraint.
pub(crate) const CONSTRAIN_EXTENSION: u8 = 255;
