ghost use Rattle.std.specs.Prelude.{◌≡◌, ◌+◌, ◌-◌, ◌≤◌, ◌^◌, IfSome};
ghost use Rattle.std.specs.Map.{lookup, set_value};
ghost use Rattle.ic_behaviour.specs.State.{at};
ghost use Rattle.ic_state.specs.Seen.{state_of};
ghost use Rattle.ic_mgmt_laws.specs.Rows.{tops_up, unless_stopped, deletes, at_canister};
ghost use Rattle.ic_mgmt.specs.Taken.{HoldsCycles};
ghost use Rattle.ic_mgmt.specs.Ending.{IfMemory, Does, Keeps};

use crate::ending::{Ending, done};
use crate::making::unless_above;
use ic_mgmt_candid::{Denial, Unmet};
use ic_principal::Principal;
use ic_state::{CanisterPlace, IncomingCall, Parts, Phase};
use std::alloc::Global;
use std::collections::BTreeMap;

// The balance of the canister grows.
fn grant(canisters: &mut BTreeMap<Principal, CanisterPlace>, id: &Principal, amount: u128)
    requires room { IfSome (lookup (at id.now) canisters.old.entries) (λ c. c.balance + amount ≤ 2 ^ 127 - 1) }
    ensures { IfSome (lookup (at id.now) canisters.old.entries) (λ c. canisters.new.entries
        ≡ set_value (at id.now) canisters.old.entries (record c { balance = c.balance + amount })) }
{
    if let Some(canister) = canisters.get_mut(id) {
        canister.get_mut().balance += amount;
    }
}

/// Creates cycles in a balance (IC Interface Specification, "IC method provisional_top_up_canister").
pub fn top_up(
    alloc: Global,
    parts: &mut Parts,
    call: &IncomingCall,
    id: Principal,
    amount: u128,
) -> Result<Ending, Unmet>
    requires holds { HoldsCycles parts.old call.now.cycles }
    ensures does { Does result call.now (state_of parts.old) (state_of parts.new)
        (at_canister (state_of parts.old) id (tops_up (state_of parts.old) call.now id amount)) }
    ensures keeps { IfMemory result (Keeps parts.old parts.new) }
{
    if !parts.canisters.contains_key(&id) {
        return Err(Unmet::Denied(Denial::NoCanister(id)));
    }
    unless_above(parts.created, amount)?;
    grant(&mut parts.canisters, &id, amount);
    parts.created += amount;
    Ok(done(alloc, call.cycles)?)
}

fn unless_stopped(phase: &Phase) -> Result<(), Denial>
    ensures { result ≡ unless_stopped phase.now }
{
    match phase {
        Phase::Stopped => Ok(()),
        _ => Err(Denial::NotStopped),
    }
}

/// A stopped canister goes, and its balance is burned (IC Interface Specification, "IC method
/// delete_canister").
pub fn delete(
    alloc: Global,
    parts: &mut Parts,
    call: &IncomingCall,
    id: Principal,
) -> Result<Ending, Unmet>
    requires holds { HoldsCycles parts.old call.now.cycles }
    ensures does { Does result call.now (state_of parts.old) (state_of parts.new)
        (at_canister (state_of parts.old) id (deletes (state_of parts.old) call.now id)) }
    ensures keeps { IfMemory result (Keeps parts.old parts.new) }
{
    let Some(place) = parts.canisters.get(&id) else {
        return Err(Unmet::Denied(Denial::NoCanister(id)));
    };
    let canister = place.get();
    unless_stopped(&canister.phase)?;
    parts.burned += canister.balance;
    parts.canisters.remove(&id);
    Ok(done(alloc, call.cycles)?)
}
