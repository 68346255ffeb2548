//! What is proved of logins, whatever the verifier.

ghost use Rattle.publickey_login.specs.Laws.{AnswersDecide, OneGrant};

/// Whatever the verifier, the login is granted exactly if all is right but the signatures, and the
/// verifier says yes to each question that is left.
pub fn answers_decide()
    ensures { AnswersDecide }
{}

/// What is pending has one question for each signer, and is granted on the same terms, however it
/// is let in.
pub fn one_grant()
    ensures { OneGrant }
{}
