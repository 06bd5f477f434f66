ghost use Rattle.std.specs.Prelude.{◌≡◌, Err, IfOk};
ghost use Rattle.ic_behaviour.specs.State.{State};
ghost use Rattle.ic_behaviour.specs.Installing.{enters_after};
ghost use Rattle.ic_api.specs.System.{system_api};
ghost use Rattle.ic_state.specs.Seen.{state_of};
ghost use Rattle.ic_mgmt_candid.specs.Checks.{Meets, permitted, ordered};
ghost use Rattle.ic_mgmt_laws.specs.Manage.{controllers_in, ended, handled};
ghost use Rattle.ic_mgmt.specs.Taken.{Taken, AreCanisters, HaveCounts, HoldsCycles};
ghost use Rattle.ic_mgmt.specs.Ending.{ended_by, IfMemory, DoesRow, Keeps};
ghost use Rattle.ic_mgmt.specs.Changes.{obeyed};

use crate::changing::change;
use crate::ending::{Ending, replied, send};
use crate::installing::InstallEnv;
use crate::making::{create, provisional_create};
use crate::moving::{delete, top_up};
use ic_base::NoMemory;
use ic_mgmt_candid::{Demand, Denial, Unmet, demanded, permitted};
use ic_principal::Principal;
use ic_state::{IncomingCall, Parts};
use std::alloc::{AllocError, Global};

// What a canister gets that is made without an amount, in cycles.
const DEFAULT_AMOUNT: u128 = 100_000_000_000_000;

// The sender may make the demand, and the canister that it is for is there.
fn permit(parts: &Parts, sender: &Principal, demand: &Demand) -> Result<(), Denial>
    ensures { result ≡ permitted (controllers_in (state_of parts.now)) sender.now demand.now }
{
    let Some(id) = demand.target() else {
        return permitted(demand, sender, None);
    };
    match parts.canisters.get(&id) {
        Some(place) => permitted(demand, sender, Some(&place.get().controllers)),
        None => Err(Denial::NoCanister(id)),
    }
}

// What the call demands, unless it is refused.
fn ordered(alloc: Global, parts: &Parts, call: &IncomingCall) -> Result<Demand, Unmet>
    ensures { Meets result (ordered (controllers_in (state_of parts.now)) call.now.origin call.now.sender call.now.method call.now.arg) }
{
    let demand = demanded(alloc, &call.origin, &call.method.items, &call.arg.items)?;
    permit(parts, &call.sender, &demand)?;
    Ok(demand)
}

// Does what the call demands, unless it is refused.
fn obey(alloc: Global, parts: &mut Parts, call: &IncomingCall, limit: u64) -> Result<Ending, Unmet>
    requires holds { HoldsCycles parts.old call.now.cycles }
    ensures does { DoesRow result call.now parts.old parts.new
        (λ now. obeyed (enters_after system_api) limit now (state_of parts.old) call.now) }
    ensures keeps { IfMemory result (Keeps parts.old parts.new) }
{
    let demand = ordered(alloc, parts, call)?;
    match demand {
        Demand::CreateCanister { controllers } => create(alloc, parts, call, controllers),
        Demand::ProvisionalCreateCanisterWithCycles {
            amount,
            controllers,
        } => {
            let amount = amount.unwrap_or(DEFAULT_AMOUNT);
            provisional_create(alloc, parts, call, amount, controllers)
        }
        Demand::ProvisionalTopUpCanister {
            canister_id,
            amount,
        } => top_up(alloc, parts, call, canister_id, amount),
        Demand::DeleteCanister { canister_id } => delete(alloc, parts, call, canister_id),
        demand => {
            let Some(id) = demand.target() else {
                unreachable!();
            };
            let env = InstallEnv {
                time: parts.time,
                limit,
            };
            match parts.canisters.get_mut(&id) {
                Some(place) => change(alloc, place.get_mut(), id, call, demand, env),
                None => Err(Unmet::Denied(Denial::NoCanister(id))),
            }
        }
    }
}

// The answer to a call that is refused: all its cycles go back.
fn denied(alloc: Global, call: &IncomingCall, denial: &Denial) -> Result<Ending, NoMemory>
    ensures { IfOk result (λ e. (s : State) → ended_by call.now e s ≡ ended s call.now (Err denial.now)) }
{
    let response = denial.response(alloc)?;
    Ok(replied(alloc, response, call.cycles))
}

/// Carries out a call to the management canister that has left the list of messages: what it changes, and
/// what it sends, is what `ic_mgmt_laws` says. `limit` is the most instructions that an installation
/// may use.
pub fn carry_out(
    alloc: Global,
    parts: Parts,
    call: IncomingCall,
    limit: u64,
) -> Result<Parts, NoMemory>
    requires taken { Taken parts call }
    // The numbers that canisters store may be those of any state.
    ensures state { IfOk result (λ p. (now : State) → HaveCounts now parts → now.time ≡ parts.time
        → state_of p ≡ handled (enters_after system_api) limit now (state_of parts) call) }
    ensures counts { IfOk result (λ p. (now : State) → HaveCounts now parts → HaveCounts now p) }
    ensures keeps { IfOk result AreCanisters }
{
    let mut parts = parts;
    match obey(alloc, &mut parts, &call, limit) {
        Ok(ending) => send(alloc, parts, &call, ending),
        Err(Unmet::Denied(denial)) => {
            let ending = denied(alloc, &call, &denial)?;
            send(alloc, parts, &call, ending)
        }
        Err(Unmet::NoMemory) => Err(AllocError),
    }
}
