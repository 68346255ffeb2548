//! An SSH agent (draft-miller-ssh-agent, section 4): the messages of client and agent, each in a
//! frame with a length of four bytes before it, and a signing key whose private half an agent holds.
//!
//! It names `ssh_key` alone, and is proved from its contracts. Copy it.
//!
//! # What is proved, tested and trusted
//!
//! It is proved that each message is read exactly if it is spelled in a frame, and that a signature
//! is returned only if the agent answered it to the one request and the verifier accepts it.
//! `checks/agent` compares with a real `ssh-agent` and `ssh-add`. Requests about smartcards and
//! extensions are not read; answers to extensions are, if strings follow the name. Nothing is
//! claimed of what an agent does.
#![tactic(auto)]

mod addition;
mod agent_key;
mod constraint;
mod frame;
mod identity;
mod kind;
pub mod laws;
mod numbers;
mod request;
mod response;
mod sign_request;

pub use addition::Addition;
pub use agent_key::{Agent, AgentKey};
pub use constraint::Constraint;
pub use identity::Identity;
pub use request::Request;
pub use response::Response;
pub use sign_request::SignRequest;
