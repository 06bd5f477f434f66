ghost use Rattle.std.specs.Prelude.{◌≡◌, ◌+◌, ◌-◌, ◌≤◌, ◌^◌, Ok};
ghost use Rattle.ic_state.specs.IsCanister.{IsCanister, cycles_of};
ghost use Rattle.ic_mgmt_laws.specs.Rows.{starts, stops};
ghost use Rattle.ic_mgmt.specs.Ending.{IfMemory};
ghost use Rattle.ic_mgmt.specs.Changes.{waits, DoesAt, KeepsCounts};

use crate::ending::{Ending, done};
use ic_calls::{await_stop, close, empty_reply, restart};
use ic_mgmt_candid::Unmet;
use ic_principal::Principal;
use ic_state::{Canister, IncomingCall, Phase, Waiter};
use std::alloc::Global;

/// The canister runs (IC Interface Specification, "IC method start_canister").
pub fn start(
    alloc: Global,
    canister: &mut Canister,
    id: Principal,
    call: &IncomingCall,
) -> Result<Ending, Unmet>
    requires keeps { IsCanister canister.old }
    ensures does { DoesAt result call.now id canister.old canister.new
        (λ now s c. Ok (starts s call.now id c)) }
    ensures counts { IfMemory result (KeepsCounts id canister.old canister.new) }
    ensures keeps { IfMemory result (IsCanister canister.new) }
{
    let response = empty_reply(alloc)?;
    let answers = restart(alloc, canister)?;
    Ok(Ending {
        reply: Some((response, call.cycles)),
        sender: id,
        answers,
    })
}

// The call waits, and the canister stops if it has no context.
fn wait(
    alloc: Global,
    canister: &mut Canister,
    id: Principal,
    call: &IncomingCall,
) -> Result<Ending, Unmet>
    requires keeps { IsCanister canister.old }
    requires room { cycles_of canister.old + call.now.cycles ≤ 2 ^ 127 - 1 }
    ensures does { DoesAt result call.now id canister.old canister.new
        (λ now s c. Ok (waits now s call.now id c)) }
    ensures counts { IfMemory result (KeepsCounts id canister.old canister.new) }
    ensures keeps { IfMemory result (IsCanister canister.new) }
{
    let waiter = Waiter {
        origin: call.origin,
        cycles: call.cycles,
    };
    await_stop(alloc, canister, waiter)?;
    let answers = close(alloc, canister, None, None)?;
    Ok(Ending {
        reply: None,
        sender: id,
        answers,
    })
}

/// The call waits until the canister is stopped (IC Interface Specification, "IC method
/// stop_canister").
pub fn stop(
    alloc: Global,
    canister: &mut Canister,
    id: Principal,
    call: &IncomingCall,
) -> Result<Ending, Unmet>
    requires keeps { IsCanister canister.old }
    requires room { cycles_of canister.old + call.now.cycles ≤ 2 ^ 127 - 1 }
    ensures does { DoesAt result call.now id canister.old canister.new
        (λ now s c. Ok (stops now s call.now id c)) }
    ensures counts { IfMemory result (KeepsCounts id canister.old canister.new) }
    ensures keeps { IfMemory result (IsCanister canister.new) }
{
    if let Phase::Stopped = &canister.phase {
        return Ok(done(alloc, call.cycles)?);
    }
    wait(alloc, canister, id, call)
}
