//! What holds of all messages: functions without code, each with a law as its contract.

ghost use Rattle.ssh_key.specs.base.Laws.{OneFront, ReadBackBefore};
ghost use Rattle.ssh_key.specs.model.Parts.{box};
ghost use Rattle.agent.specs.Requests.{IsWellFormed as IsRequest, request, request_format, request_of};
ghost use Rattle.agent.specs.Responses.{IsWellFormed as IsResponse, response, response_format, response_of};

/// No request begins another, and no bytes are two; no more does a response.
pub fn one_message()
    ensures requests { OneFront request_format.Spells }
    ensures responses { OneFront response_format.Spells }
{}

/// What is written of a well-formed message that fits is read back as that message, whatever
/// follows it.
pub fn read_back_messages()
    ensures requests { ReadBackBefore IsRequest (λ r. box (request r)) request_of
        request_format.read }
    ensures responses { ReadBackBefore IsResponse (λ r. box (response r)) response_of
        response_format.read }
{}
