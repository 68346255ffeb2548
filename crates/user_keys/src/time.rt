//! Until when a line counts.

ghost use Rattle.user_keys.specs.Judgements.{CountsAt};

use crate::answer::Answer;
use sshkey_matching::Span;

/// Whether a line with that `expiry-time` counts at the second: through the last one.
pub(crate) fn counts_at(expires: Option<Span>, unix_timestamp: u64) -> Answer
    ensures { CountsAt expires unix_timestamp result }
{
    let Some(last) = expires else {
        return Answer::Yes;
    };
    if unix_timestamp <= last.first {
        return Answer::Yes;
    }
    if unix_timestamp <= last.last {
        return Answer::Unclear;
    }
    Answer::No
}
