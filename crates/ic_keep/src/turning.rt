ghost use Rattle.std.specs.Prelude.{◌≡◌, ℕ, ◌<◌, ◌^◌, List, Some, None, map, length, IfOk, OnOk, IsTrue};
ghost use Rattle.std.specs.List.{AllByRecursion};
ghost use Rattle.std.specs.List.Sorted.{IsStrictlySortedBy};
ghost use Rattle.std.specs.Ordering.{nat_cmp};
ghost use Rattle.std.specs.Cmp.Lexicographic.{slice_cmp};
ghost use Rattle.ic_state.specs.declared.canister.Canister.{Canister as StoredCanister};
ghost use Rattle.ic_state.specs.Seen.{seen};
ghost use Rattle.ic_exact.specs.Ranges.{AreNumbers, bytes_of};
ghost use Rattle.ic_keep.specs.declared.parts.KeptCanister.{KeptCanister as ACanister};
ghost use Rattle.ic_keep.specs.Kept.{canister_at, counted_at, seen_entry, state_at};
ghost use Rattle.ic_keep.specs.IsKept.{HasShape, IsKept, IsStored};

use crate::keeper::Keeper;
use crate::kept::Kept;
use crate::parts::KeptCanister;
use ic_base::NoMemory;
use ic_exact::{Exact, Ranges, Same, Shared};
use ic_principal::Principal;
use ic_state::{Canister, CanisterPlace, World};
use std::alloc::Global;
use std::collections::BTreeMap;
use wm_store::Store;

/// The bytes of a range.
const RANGE: usize = 4_096;

// Whether the store of the one can be turned into that of the other in place.
fn has_shape(from: &KeptCanister, to: &KeptCanister) -> bool
    ensures { IsTrue result → HasShape from.now to.now }
{
    from.code == to.code
        && from.store.table.same(&to.store.table)
        && from.store.globals.items.len() == to.store.globals.items.len()
        && to.store.globals.items.len() <= 65_535
        && from.store.memory.items.len() == to.store.memory.items.len()
        && from.store.stable.items.len() == to.store.stable.items.len()
}

impl Keeper {
    /// Turns the world of one kept state into that of another. What both have alike stays as it is: of
    /// memories only the ranges are written that differ.
    pub fn turn(
        &self,
        alloc: Global,
        world: World,
        from: &Kept,
        to: &Kept,
    ) -> Result<World, NoMemory>
        requires from { IsKept self.now from.now }
        requires to { IsKept self.now to.now }
        requires world { world ≡ state_at self.now from.now }
        ensures { IfOk result (λ turned. turned ≡ state_at self.now to.now) }
    {
        if from.canisters.len() != to.canisters.len() {
            return self.make(alloc, to);
        }
        let mut parts = world.open();
        let canisters = self.turn_canisters(
            alloc,
            &mut parts.canisters,
            from.canisters.as_slice(),
            to.canisters.as_slice(),
        )?;
        self.seal(alloc, canisters, to)
    }

    // The last goes into the map first, so that each one goes to its front.
    fn turn_canisters(
        &self,
        alloc: Global,
        old: &mut BTreeMap<Principal, CanisterPlace>,
        from: &[Shared<KeptCanister>],
        to: &[Shared<KeptCanister>],
    ) -> Result<BTreeMap<Principal, CanisterPlace>, NoMemory>
        requires lengths { length from.now ≡ length to.now }
        requires from { AllByRecursion (IsStored self.now) from.now }
        requires to { AllByRecursion (IsStored self.now) to.now }
        requires rising { IsStrictlySortedBy (slice_cmp nat_cmp) (map (λ (c : ACanister). c.id) to.now) }
        requires old { map seen_entry old.old.entries ≡ map (counted_at self.now) from.now }
        requires idle { AllByRecursion (λ (e : List ℕ × StoredCanister). e.1.store.begun ≡ None) old.old.entries }
        ensures canisters { IfOk result (λ m. map seen_entry m.entries ≡ map (counted_at self.now) to.now) }
        ensures begun { IfOk result (λ m. AllByRecursion (λ (e : List ℕ × StoredCanister). e.1.store.begun ≡ None) m.entries) }
    {
        let mut canisters = BTreeMap::new(alloc);
        let mut left = to.len();
        while left > 0 {
            left -= 1;
            let next = to[left].get();
            let Some((_, place)) = old.pop_last() else {
                return self.make_canisters(alloc, to);
            };
            let place = self.turn_canister(alloc, place, from[left].get(), next)?;
            canisters.insert(next.id, place)?;
        }
        Ok(canisters)
    }

    fn turn_canister(
        &self,
        alloc: Global,
        place: CanisterPlace,
        from: &KeptCanister,
        to: &KeptCanister,
    ) -> Result<CanisterPlace, NoMemory>
        requires from { IsStored self.now from.now }
        requires to { IsStored self.now to.now }
        requires canister { seen place ≡ canister_at self.now from.now }
        requires idle { place.store.begun ≡ None }
        ensures canister { IfOk result (λ c. seen c ≡ canister_at self.now to.now) }
        ensures begun { IfOk result (λ c. c.store.begun ≡ None) }
    {
        if from.same(to) {
            return Ok(place);
        }
        if !has_shape(from, to) {
            return self.place(alloc, to);
        }
        let mut place = place;
        self.rewrite(alloc, place.get_mut(), from, to)?;
        Ok(place)
    }

    fn rewrite(
        &self,
        alloc: Global,
        canister: &mut Canister,
        from: &KeptCanister,
        to: &KeptCanister,
    ) -> Result<(), NoMemory>
        requires from { IsStored self.now from.now }
        requires to { IsStored self.now to.now }
        requires shape { HasShape from.now to.now }
        requires canister { seen canister.old ≡ canister_at self.now from.now }
        ensures canister { OnOk result (seen canister.new ≡ canister_at self.now to.now) }
        ensures begun { OnOk result (canister.new.store.begun ≡ canister.old.store.begun) }
    {
        let (old, new) = (&from.store, &to.store);
        rewrite_memory(
            &self.ranges,
            canister.store.get_mut(),
            old.memory.items.as_slice(),
            new.memory.items.as_slice(),
        )?;
        rewrite_stable(
            &self.ranges,
            canister.store.get_mut(),
            old.stable.items.as_slice(),
            new.stable.items.as_slice(),
        )?;
        rewrite_globals(canister.store.get_mut(), new.globals.items.as_slice());
        canister.id = to.id;
        canister.controllers = to.controllers.copy(alloc)?;
        canister.balance = to.balance;
        canister.certified = Exact::copy(&to.certified, alloc)?;
        canister.contexts = to.contexts.copy(alloc)?;
        canister.phase = to.phase.copy(alloc)?;
        canister.next_call = to.next_call;
        canister.outstanding = to.outstanding;
        Ok(())
    }
}

// Writes the ranges of memory that differ.
fn rewrite_memory(
    ranges: &Ranges,
    store: &mut Store,
    from: &[u32],
    to: &[u32],
) -> Result<(), NoMemory>
    requires lengths { length from.now ≡ length to.now }
    requires from { AreNumbers ranges.now from.now }
    requires to { AreNumbers ranges.now to.now }
    requires memory { store.old.lists.memory ≡ bytes_of ranges.now from.now }
    ensures lists { OnOk result (store.new.lists ≡ record store.old.lists { memory = bytes_of ranges.now to.now }) }
    ensures begun { OnOk result (store.new.begun ≡ store.old.begun) }
{
    ranges.are_distinct();
    let _pages = store.pages();
    for i in 0..to.len() {
        if from[i] != to[i] {
            store.copy_into((RANGE * i) as u64, ranges.range(to[i]))?;
        }
    }
    Ok(())
}

// Writes the ranges of stable memory that differ.
fn rewrite_stable(
    ranges: &Ranges,
    store: &mut Store,
    from: &[u32],
    to: &[u32],
) -> Result<(), NoMemory>
    requires lengths { length from.now ≡ length to.now }
    requires from { AreNumbers ranges.now from.now }
    requires to { AreNumbers ranges.now to.now }
    requires stable { store.old.lists.stable ≡ bytes_of ranges.now from.now }
    ensures lists { OnOk result (store.new.lists ≡ record store.old.lists { stable = bytes_of ranges.now to.now }) }
    ensures begun { OnOk result (store.new.begun ≡ store.old.begun) }
{
    ranges.are_distinct();
    let _pages = store.stable_pages();
    for i in 0..to.len() {
        if from[i] != to[i] {
            store.stable_write((RANGE * i) as u64, ranges.range(to[i]))?;
        }
    }
    Ok(())
}

fn rewrite_globals(store: &mut Store, globals: &[u64])
    requires lengths { length globals.now ≡ length store.old.lists.globals }
    requires few { length globals.now < 2 ^ 32 }
    ensures lists { store.new.lists ≡ record store.old.lists { globals = globals.now } }
    ensures begun { store.new.begun ≡ store.old.begun }
{
    for i in 0..globals.len() {
        store.set_global(i as u32, globals[i]);
    }
}
