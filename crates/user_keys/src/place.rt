//! From where a line lets in.

ghost use Rattle.std.specs.Prelude.{◌≡◌, ◌≢◌, IfOk, Some, option_map, string_bytes};
ghost use Rattle.sshkey_matching.specs.declared.from.FromFault.TheVariants.{Memory};
ghost use Rattle.user_keys.specs.Judgements.{LetsFrom};
ghost use Rattle.user_keys.specs.declared.answer.Answer.TheVariants.{Unclear};

use crate::answer::Answer;
use sshkey_matching::{FromFault, from_allows_at};
use std::alloc::{AllocError, Global};
use std::net::IpAddr;

/// Whether a line with that `from` lets a client in from its address, if it has one, whose host has
/// that name or none.
pub(crate) fn lets_from(
    alloc: Global,
    from: &Option<String>,
    client: Option<IpAddr>,
    host: Option<&str>,
) -> Result<Answer, AllocError>
    ensures { IfOk result (LetsFrom (option_map string_bytes from.now) client host.entry) }
{
    let Some(list) = from else {
        return Ok(Answer::Yes);
    };
    match client {
        Some(address) => lets_from_at(alloc, list.as_str(), address, host),
        None => Ok(Answer::Unclear),
    }
}

/// Whether the list lets in a client at the address. Where it has a fault sshd(8) may do so.
fn lets_from_at(
    alloc: Global,
    list: &str,
    address: IpAddr,
    host: Option<&str>,
) -> Result<Answer, AllocError>
    ensures { IfOk result (LetsFrom (Some list.now) (Some address) host.entry) }
{
    match from_allows_at(alloc, list, host, address) {
        Ok(true) => Ok(Answer::Yes),
        Ok(false) => Ok(Answer::No),
        Err(fault) => unclear_for(fault),
    }
}

/// What a fault of a list says: nothing but that memory ran out.
fn unclear_for(fault: FromFault) -> Result<Answer, AllocError>
    ensures { IfOk result (λ a. (a ≡ Unclear) × (fault ≢ Memory)) }
{
    match fault {
        FromFault::Address | FromFault::Host | FromFault::List => Ok(Answer::Unclear),
        FromFault::Memory => Err(AllocError),
    }
}
