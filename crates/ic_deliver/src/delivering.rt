ghost use Rattle.std.specs.Prelude.{◌≡◌, Some, None, OnOk};
ghost use Rattle.std.specs.Map.{lookup};
ghost use Rattle.ic_behaviour.specs.State.{at};
ghost use Rattle.ic_state.specs.declared.canister.Canister.{Canister as ACanister};
ghost use Rattle.ic_deliver.specs.Giving.{CanTake};
ghost use Rattle.ic_deliver.specs.Delivered.{HasHandled, sent_back_in, refused_in};

use crate::giving::give;
use crate::settling::settle;
use ic_base::NoMemory;
use ic_calls::{no_canister, respond};
use ic_principal::Principal;
use ic_state::{Answered, BoundedEnv, Message, Origin, Parts};
use std::alloc::Global;

/// Sends a call to no canister back, with all its cycles.
pub fn send_back(
    alloc: Global,
    parts: &mut Parts,
    callee: &Principal,
    origin: Origin,
    cycles: u128,
) -> Result<(), NoMemory>
    ensures back { OnOk result (parts.new ≡ sent_back_in callee.now origin cycles parts.old) }
    ensures rest { parts.new ≡ record parts.old { messages = parts.new.messages; requests = parts.new.requests } }
{
    let response = no_canister(alloc, callee)?;
    let given = Answered {
        origin,
        response,
        refund: cycles,
    };
    respond(parts, callee, given)
}

// No canister has the callee's id.
fn refuse(
    alloc: Global,
    parts: &mut Parts,
    callee: &Principal,
    message: &Message,
) -> Result<(), NoMemory>
    ensures { OnOk result (parts.new ≡ refused_in callee.now message.now parts.old) }
{
    match message {
        Message::Call { origin, cycles, .. } => send_back(alloc, parts, callee, *origin, *cycles),
        Message::Answer { .. } => Ok(()),
    }
}

/// Delivers a message that has left the list: the canister with the callee's id handles it where it stands, and what it
/// sends goes on; a call to no canister goes back. Calls to the management canister are no matter of this crate.
pub fn deliver(
    alloc: Global,
    parts: &mut Parts,
    callee: &Principal,
    message: Message,
    env: BoundedEnv,
) -> Result<(), NoMemory>
    requires ready { (c : ACanister) → lookup (at callee.now) parts.old.canisters.entries ≡ Some c
        → CanTake env parts.old.burned c message }
    ensures handled { OnOk result ((c : ACanister) → lookup (at callee.now) parts.old.canisters.entries ≡ Some c
        → HasHandled env callee.now c message parts.old parts.new) }
    ensures refused { OnOk result (lookup (at callee.now) parts.old.canisters.entries ≡ None
        → parts.new ≡ refused_in callee.now message parts.old) }
{
    match parts.canisters.get_mut(callee) {
        Some(place) => {
            let done = give(alloc, place, message, env)?;
            settle(parts, callee, done)
        }
        None => refuse(alloc, parts, callee, &message),
    }
}
