ghost use Rattle.std.specs.Prelude.{◌≡◌, ◌+◌, ◌-◌, ◌<◌, ◌≤◌, ◌^◌, ℕ, List, [], map, IfOk, OnOk, vec_len};
ghost use Rattle.std.specs.List.{fold, AllByRecursion};
ghost use Rattle.std.specs.BTreeMap.{insert_entry};
ghost use Rattle.std.specs.Ordering.{nat_cmp};
ghost use Rattle.std.specs.Cmp.Lexicographic.{slice_cmp};
ghost use Rattle.ic_state.specs.declared.canister.Canister.{Canister as ACanister};
ghost use Rattle.ic_state.specs.IsCanister.{IsCanister};
ghost use Rattle.ic_rounds.specs.Slots.{stored_of, slot_of, after_slot, AreReady, AreCanisters};
ghost use Rattle.ic_rounds.specs.HandledSlots.{put_handled, insert_all, AreHandled};

use crate::crew::Crew;
use crate::handled_slot::HandledSlot;
use crate::sharing::handle_slots;
use crate::slot::Slot;
use ic_base::NoMemory;
use ic_deliver::settle;
use ic_outside::Gate;
use ic_principal::Principal;
use ic_state::{BoundedEnv, CanisterPlace, Parts};
use std::alloc::Global;
use std::collections::BTreeMap;
use std::thread::Threads;

// A canister goes back into the map.
fn put_back(
    canisters: &mut BTreeMap<Principal, CanisterPlace>,
    key: Principal,
    canister: CanisterPlace,
) -> Result<(), NoMemory>
    ensures { OnOk result (canisters.new.entries ≡ insert_entry (slice_cmp nat_cmp) canisters.old.entries key canister) }
{
    canisters.insert(key, canister)?;
    Ok(())
}

// Puts what came of a slot where it belongs: its canister goes back, and what it sends goes on.
fn put_handled(parts: &mut Parts, slot: HandledSlot) -> Result<(), NoMemory>
    requires keeps { IsCanister slot.canister }
    requires room { parts.old.burned + slot.done.burned ≤ 2 ^ 127 - 1 }
    requires keep { AreCanisters parts.old }
    ensures stored { OnOk result (stored_of parts.new ≡ put_handled (stored_of parts.old) slot) }
    ensures keep { OnOk result (AreCanisters parts.new) }
{
    let HandledSlot {
        key,
        canister,
        done,
    } = slot;
    put_back(&mut parts.canisters, key, canister)?;
    settle(parts, &key, done)
}

// The map of these canisters.
fn canister_map(
    alloc: Global,
    canisters: Vec<(Principal, CanisterPlace)>,
) -> Result<BTreeMap<Principal, CanisterPlace>, NoMemory>
    ensures { IfOk result (λ m. m.entries ≡ insert_all canisters.items) }
{
    let map = canisters.into_iter().collect(alloc)?;
    Ok(map)
}

// Puts what came of slots where it belongs, where all canisters are in slots. Their map is made at once.
fn put_all_handled(
    alloc: Global,
    parts: Parts,
    handled: Vec<HandledSlot>,
) -> Result<Parts, NoMemory>
    requires none { parts.canisters.entries ≡ [] }
    requires handled { AreHandled (stored_of parts) handled.items }
    ensures stored { IfOk result (λ p. stored_of p ≡ fold put_handled (stored_of parts) handled.items) }
    ensures keep { IfOk result AreCanisters }
{
    let mut parts = parts;
    let mut canisters = Vec::with_capacity(alloc, handled.len())?;
    for slot in handled {
        let HandledSlot {
            key,
            canister,
            done,
        } = slot;
        settle(&mut parts, &key, done)?;
        canisters.push_reserved((key, canister));
    }
    parts.canisters = canister_map(alloc, canisters)?;
    Ok(parts)
}

/// Handles the messages of slots on the workers of a crew, and puts back their canisters, in the
/// order of the slots.
pub fn handle_and_put_back<R: Threads + Sync, G: Gate + Sync>(
    alloc: Global,
    parts: Parts,
    slots: Vec<Slot>,
    crew: &Crew<'_, R, G>,
    env: BoundedEnv,
) -> Result<Parts, NoMemory>
    requires few { vec_len slots ≤ 64 }
    requires ready { AreReady env (stored_of parts) slots.items }
    requires keep { AreCanisters parts }
    ensures stored { IfOk result (λ p. stored_of p
        ≡ fold (after_slot env) (stored_of parts) (map slot_of slots.items)) }
    ensures keep { IfOk result AreCanisters }
{
    let handled = handle_slots(alloc, slots, crew, env)?;
    if parts.canisters.is_empty() {
        return put_all_handled(alloc, parts, handled);
    }
    let mut parts = parts;
    for slot in handled {
        put_handled(&mut parts, slot)?;
    }
    Ok(parts)
}
