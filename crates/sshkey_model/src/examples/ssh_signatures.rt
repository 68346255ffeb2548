//! Examples of SSH signatures.

ghost use Rattle.sshkey_model.specs.SshSignatureExamples.{SignedData, SignedMessage, KeyLine, IllFormed};

/// The 64 bytes that a signature in the namespace `file` over the empty message is over
/// (PROTOCOL.sshsig).
pub fn signed_data()
    ensures { SignedData }
{}

/// What is signed in place of the empty message has its digest.
pub fn signed_message()
    ensures { SignedMessage }
{}

/// The line of a key, with a comment and without.
pub fn key_line()
    ensures { KeyLine }
{}

/// No SSH signature has version 2 or an empty namespace.
pub fn ill_formed()
    ensures { IllFormed }
{}
