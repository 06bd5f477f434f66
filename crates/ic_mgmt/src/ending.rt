ghost use Rattle.std.specs.Prelude.{◌≡◌, [], Some, IfOk};
ghost use Rattle.ic_behaviour.specs.Closing.{empty_reply};
ghost use Rattle.ic_state.specs.Seen.{state_of};
ghost use Rattle.ic_mgmt.specs.Ending.{reply_by, ended_by};

use ic_base::NoMemory;
use ic_calls::{answer, empty_reply, route};
use ic_principal::Principal;
use ic_state::{Answered, AnsweredList, IncomingCall, Messages, Parts, Response};
use std::alloc::Global;

/// What is sent once a method has changed the canisters.
#[derive(Drop)]
pub struct Ending {
    /// The answer to the call, with the cycles that go back; none where the call waits.
    pub reply: Option<(Response, u128)>,
    /// Who answers other calls after it.
    pub sender: Principal,
    pub answers: AnsweredList,
}

/// The management canister's principal has no bytes (IC Interface Specification, "The IC management
/// canister").
fn management() -> Principal
    ensures { result ≡ [] }
{
    let Ok(management) = Principal::from_bytes(&[]) else {
        unreachable!();
    };
    management
}

/// The call is answered, and no other.
pub fn replied(alloc: Global, response: Response, refund: u128) -> Ending
    ensures { result ≡ record { reply = Some (response, refund); sender = []; answers = [] } }
{
    Ending {
        reply: Some((response, refund)),
        sender: management(),
        answers: AnsweredList {
            items: Vec::new(alloc),
        },
    }
}

/// The call is answered without values, and no other is answered.
pub fn done(alloc: Global, refund: u128) -> Result<Ending, NoMemory>
    ensures { IfOk result (λ e. e ≡ record { reply = Some (empty_reply, refund); sender = []; answers = [] }) }
{
    let response = empty_reply(alloc)?;
    Ok(replied(alloc, response, refund))
}

// Answers the call, if it does not wait.
fn reply(
    parts: Parts,
    call: &IncomingCall,
    reply: Option<(Response, u128)>,
) -> Result<Parts, NoMemory>
    ensures state { IfOk result (λ p. state_of p ≡ reply_by call.now reply (state_of parts)) }
    ensures canisters { IfOk result (λ p. p.canisters ≡ parts.canisters) }
{
    match reply {
        Some((response, refund)) => answer(
            parts,
            &management(),
            Answered {
                origin: call.origin,
                response,
                refund,
            },
        ),
        None => Ok(parts),
    }
}

/// Sends it.
pub fn send(
    alloc: Global,
    parts: Parts,
    call: &IncomingCall,
    ending: Ending,
) -> Result<Parts, NoMemory>
    ensures state { IfOk result (λ p. state_of p ≡ ended_by call.now ending (state_of parts)) }
    ensures canisters { IfOk result (λ p. p.canisters ≡ parts.canisters) }
{
    let Ending {
        reply: own,
        sender,
        answers,
    } = ending;
    let parts = reply(parts, call, own)?;
    let calls = Messages {
        items: Vec::new(alloc),
    };
    route(parts, &sender, calls, answers)
}
