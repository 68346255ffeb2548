//! What is asked of an authority.

use ssh_key::public::KeyData;

/// What is asked for: a certificate for users.
#[derive(Debug, Drop)]
pub struct Request {
    /// The key that is to be certified.
    pub key: KeyData,
    /// A text that names whom it is for, for logs. All that `Limits` refuse of it is a zero byte,
    /// so it may have line ends and the name of another.
    pub key_id: String,
    /// The users who may log in with it.
    pub principals: Vec<String>,
    /// What the certificate permits: extensions by their names, as `permit-pty`, which are added
    /// without data, and each once. A certificate without any permits no terminal and no
    /// forwarding; `ssh-keygen -s` adds five of itself.
    pub extensions: Vec<String>,
    /// The first second of the window.
    pub valid_after: u64,
    /// The first second after the window.
    pub valid_before: u64,
}
