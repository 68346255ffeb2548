//! Examples of what a verifier is asked.

ghost use Rattle.sshkey_model.specs.DispatchExamples.{Dispatch, PlainQuestions, SecurityKeyQuestions, SecurityKeyOrder, VerifierAnswers};

/// Every key with every algorithm: the pairs that are asked about.
pub fn dispatch()
    ensures { Dispatch }
{}

/// A plain key is asked about with the message itself.
pub fn plain_questions()
    ensures { PlainQuestions }
{}

/// What a security key signs has 69 bytes (PROTOCOL.u2f), and is asked about under the plain key.
pub fn security_key_questions()
    ensures { SecurityKeyQuestions }
{}

/// The application's digest stands before flags and counter, the message's after them.
pub fn security_key_order()
    ensures { SecurityKeyOrder }
{}

/// The answer counts only where the verifier is asked.
pub fn answers()
    ensures { VerifierAnswers }
{}
