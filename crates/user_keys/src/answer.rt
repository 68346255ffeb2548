//! What is said of a line.

ghost use Rattle.std.specs.Prelude.{◌≡◌};
ghost use Rattle.user_keys.specs.Answers.{FollowsFrom, first_refused, refusal_for};

use crate::refusal::{Reason, UserRefusal};
use login_terms::Terms;

/// Whether something holds for sshd(8).
#[derive(Clone, Copy)]
pub(crate) enum Answer {
    Yes,
    No,
    /// It depends on sshd's version or on its machine.
    Unclear,
}

/// What the terms of a line that is for the key say of the login.
#[derive(Clone, Copy)]
pub(crate) enum Judgement {
    /// They allow it.
    Allows,
    /// They refuse it for that.
    Refuses(Reason),
    /// They may allow it.
    Unclear,
}

/// What a line says of the login.
#[derive(Drop)]
pub(crate) enum LineVerdict {
    /// It lets the key in, on those terms.
    Lets(Terms),
    /// It is for the key, and refuses it for that.
    Refuses(Reason),
    /// It may let the key in.
    Unclear,
    /// It is for others, or for nobody.
    Passes,
}

/// What a line says whose terms are judged so.
pub(crate) fn verdict_of(terms: Terms, judgement: Judgement) -> LineVerdict
    ensures { FollowsFrom terms judgement result }
{
    match judgement {
        Judgement::Allows => LineVerdict::Lets(terms),
        Judgement::Refuses(reason) => LineVerdict::Refuses(reason),
        Judgement::Unclear => LineVerdict::Unclear,
    }
}

/// The first line that refuses, and why: of those so far, or else this one.
pub(crate) fn first_refused(
    refused: Option<(usize, Reason)>,
    line: usize,
    reason: Reason,
) -> Option<(usize, Reason)>
    ensures { result ≡ first_refused refused line reason }
{
    match refused {
        Some(first) => Some(first),
        None => Some((line, reason)),
    }
}

/// What refuses where no line lets in: the first line that refuses, if one does.
pub(crate) fn refusal_for(refused: Option<(usize, Reason)>) -> UserRefusal
    ensures { result ≡ refusal_for refused }
{
    match refused {
        Some((line, reason)) => UserRefusal::NotAllowed { line, reason },
        None => UserRefusal::NotListed,
    }
}
