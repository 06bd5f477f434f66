ghost use Rattle.std.specs.Prelude.{◌≡◌, Some, IfOk, OnOk};
ghost use Rattle.std.specs.List.{fold};
ghost use Rattle.ic_behaviour.specs.Deliver.{fill};
ghost use Rattle.ic_calls.specs.Sent.{answered_in, sent_from};

use ic_base::NoMemory;
use ic_principal::Principal;
use ic_state::{
    Answered, AnsweredList, Message, Messages, Origin, Parts, Request, Requests, Response,
};

// Stores the answer to a request, where there is one of this number.
fn fill(requests: &mut Requests, number: u32, response: Response)
    ensures { requests.new ≡ fill number response requests.old }
{
    let place = number as usize;
    if place < requests.items.len() {
        set_answer(&mut requests.items[place], response);
    }
}

fn set_answer(request: &mut Request, response: Response)
    ensures { request.new ≡ record request.old { answer = Some response } }
{
    request.answer = Some(response);
}

/// Gives an answer (IC Interface Specification, "Respond to user request" and "Callback
/// invocation"): one to a user is stored in the request, every other is a message from `sender`,
/// which comes last.
pub fn answer(parts: Parts, sender: &Principal, given: Answered) -> Result<Parts, NoMemory>
    ensures { IfOk result (λ p. p ≡ answered_in sender.now given parts) }
{
    let mut parts = parts;
    respond(&mut parts, sender, given)?;
    Ok(parts)
}

/// Gives an answer, as `answer` does, in fields that are lent.
pub fn respond(parts: &mut Parts, sender: &Principal, given: Answered) -> Result<(), NoMemory>
    ensures answered { OnOk result (parts.new ≡ answered_in sender.now given parts.old) }
    ensures rest { parts.new ≡ record parts.old { messages = parts.new.messages; requests = parts.new.requests } }
{
    let Answered {
        origin,
        response,
        refund,
    } = given;
    match origin {
        Origin::Ingress(number) => fill(&mut parts.requests, number, response),
        Origin::Canister { .. } => parts.messages.push(Message::Answer {
            origin,
            sender: *sender,
            response,
            refund,
        })?,
    }
    Ok(())
}

// Gives answers, in their order.
fn give_all(parts: &mut Parts, sender: &Principal, answers: AnsweredList) -> Result<(), NoMemory>
    ensures given { OnOk result (parts.new ≡ fold (λ q given. answered_in sender.now given q) parts.old answers) }
    ensures rest { parts.new ≡ record parts.old { messages = parts.new.messages; requests = parts.new.requests } }
{
    for given in answers.items {
        respond(parts, sender, given)?;
    }
    Ok(())
}

/// Sends what the canister `sender` sent while it handled a message: the calls come last, and then the
/// answers, of which those to users are stored in their requests.
pub fn route(
    parts: Parts,
    sender: &Principal,
    calls: Messages,
    answers: AnsweredList,
) -> Result<Parts, NoMemory>
    ensures { IfOk result (λ p. p ≡ sent_from sender.now calls answers parts) }
{
    let mut parts = parts;
    send(&mut parts, sender, calls, answers)?;
    Ok(parts)
}

/// Sends what the canister `sender` sent, as `route` does, in fields that are lent. After `NoMemory` some of it may
/// be sent.
pub fn send(
    parts: &mut Parts,
    sender: &Principal,
    calls: Messages,
    answers: AnsweredList,
) -> Result<(), NoMemory>
    ensures sent { OnOk result (parts.new ≡ sent_from sender.now calls answers parts.old) }
    ensures rest { parts.new ≡ record parts.old { messages = parts.new.messages; requests = parts.new.requests } }
{
    parts.messages.append(calls)?;
    give_all(parts, sender, answers)
}
