//! What is proved of logins, whatever the verifier.

ghost use Rattle.login_policy.specs.Logins.{AnswersDecide};

/// Whatever the verifier, `log_in` lets in exactly if all is right but the signature, and the
/// verifier says yes to the one question of the certificate.
pub fn answers_decide()
    ensures { AnswersDecide }
{}
