//! Rounds in which it is heard what canisters say: one message is delivered after another, at the places of the rounds as they are
//! defined.

ghost use Rattle.std.specs.Prelude.{◌≡◌, ◌<◌, ◌+◌, ◌^◌, true, false, length, slice_get, is_some, IfOk, OnOk};
ghost use Rattle.std.specs.List.{concat, filter};
ghost use Rattle.std.specs.Map.{keys_of, lookup};
ghost use Rattle.ic_behaviour.specs.State.{at};
ghost use Rattle.ic_behaviour.specs.Steps.{along, step};
ghost use Rattle.ic_behaviour.specs.Round.{busy, first_for, goes, has_message, round, rounds, sweep, turns};
ghost use Rattle.ct_run.specs.Called.{most_rounds, rules_of};
ghost use Rattle.ct_run.specs.Inside.{is_inside};

use crate::calling::MOST_ROUNDS;
use crate::runner::Runner;
use crate::telling::tell;
use ct_script::Script;
use ct_worlds::delivered;
use ic_base::NoMemory;
use ic_calls::callee;
use ic_outside::Gate;
use ic_principal::Principal;
use ic_schedule::{eligible, is_managed};
use ic_state::{CanisterPlace, Message, World};
use std::alloc::Global;
use std::collections::BTreeMap;
use std::thread::Threads;

// The ids of canisters, in rising order.
fn keys(
    alloc: Global,
    canisters: &BTreeMap<Principal, CanisterPlace>,
) -> Result<Vec<Principal>, NoMemory>
    ensures { IfOk result (λ found. found.items ≡ keys_of canisters.now.entries) }
{
    canisters.keys().copied().collect(alloc)
}

fn ids(alloc: Global, world: &World) -> Result<Vec<Principal>, NoMemory>
    ensures { IfOk result (λ found. found.items ≡ keys_of world.now.canisters) }
{
    let ids = keys(alloc, &world.parts().canisters)?;
    Ok(ids)
}

// Those whose code may run where the message at a place is delivered: its callee, or all where that is the management
// canister, since which one it installs is said in the argument alone.
fn those_heard(alloc: Global, world: &World, place: usize) -> Result<Vec<Principal>, NoMemory> {
    if is_managed(world, place) {
        return ids(alloc, world);
    }
    let mut items = Vec::new(alloc);
    if let Some(message) = world.parts().messages.items.get(place) {
        items.push(callee(message))?;
    }
    Ok(items)
}

// From now on somebody listens to these canisters.
fn listen_to(alloc: Global, world: &mut World, ids: &[Principal]) -> Result<(), NoMemory>
    ensures { OnOk result (world.new ≡ world.old) }
{
    for id in ids {
        world.listen_to(alloc, id)?;
    }
    Ok(())
}

// What was heard of these canisters comes into the script.
fn hear(
    alloc: Global,
    world: &mut World,
    ids: &[Principal],
    script: &mut Script,
) -> Result<(), NoMemory>
    ensures { OnOk result (world.new ≡ world.old) }
{
    for id in ids {
        let heard = world.take_heard(alloc, id);
        script.hear(id, &heard)?;
    }
    Ok(())
}

// How many cycles were burned so far.
fn burned(world: &World) -> u128
    ensures { result ≡ world.now.burned }
{
    world.parts().burned
}

// How many messages are under way.
fn message_count(world: &World) -> usize
    ensures { result ≡ length world.now.messages }
{
    world.parts().messages.items.len()
}

// The place of the first message to a canister, or the end of the list.
fn first_place(world: &World, id: &Principal) -> usize
    ensures { result ≡ first_for id.now world.now.messages }
{
    match world.first_for(id) {
        Some(place) => place,
        None => message_count(world),
    }
}

fn has_one(messages: &[Message], id: &Principal) -> bool
    ensures { result ≡ has_message messages.now id.now }
{
    messages.iter().any(|message| message.is_to(id))
}

// Whether a canister has a message.
fn has_message(world: &World, id: &Principal) -> bool
    ensures { result ≡ has_message world.now.messages id.now }
{
    has_one(&world.parts().messages.items, id)
}

// Those of these canisters that have a message.
fn busy_of(alloc: Global, world: &World, ids: &[Principal]) -> Result<Vec<Principal>, NoMemory>
    ensures { IfOk result (λ found. found.items ≡ filter (has_message world.now.messages) ids.now) }
{
    let mut items = Vec::new(alloc);
    for id in ids {
        if has_message(world, id) {
            items.push(*id)?;
        }
    }
    Ok(items)
}

// The canisters that have a message, in rising id.
fn busy(alloc: Global, world: &World) -> Result<Vec<Principal>, NoMemory>
    ensures { IfOk result (λ found. found.items ≡ busy world.now) }
{
    let ids = ids(alloc, world)?;
    let busy = busy_of(alloc, world, &ids)?;
    Ok(busy)
}

fn has_key(canisters: &BTreeMap<Principal, CanisterPlace>, id: &Principal) -> bool
    ensures { result ≡ is_some (lookup (at id.now) canisters.now.entries) }
{
    canisters.contains_key(id)
}

// Whether a canister has this id.
fn is_there(world: &World, id: &Principal) -> bool
    ensures { result ≡ is_some (lookup (at id.now) world.now.canisters) }
{
    has_key(&world.parts().canisters, id)
}

// Whether the message at a place is to a canister.
fn is_inside(world: &World, place: usize) -> bool
    ensures { result ≡ is_inside world.now (slice_get world.now.messages place) }
{
    match world.parts().messages.items.get(place) {
        Some(message) => is_there(world, &callee(message)),
        None => false,
    }
}

// Whether a message goes in the second phase: it is to no canister, and none of its sender to its callee is left before it.
fn goes(world: &World, place: usize) -> bool
    ensures { result ≡ goes world.now place (slice_get world.now.messages place) }
{
    if is_inside(world, place) {
        return false;
    }
    eligible(world, place)
}

impl<'i, R: Threads + Sync, G: Gate + Sync> Runner<'i, R, G> {
    /// Where a trace is wanted, from now on somebody listens to a canister.
    pub(crate) fn listening(
        &self,
        world: World,
        id: &Principal,
        script: &Script,
    ) -> Result<World, NoMemory>
        ensures { IfOk result (λ after. after ≡ world) }
    {
        let mut world = world;
        if script.traces() {
            world.listen_to(self.alloc, id)?;
        }
        Ok(world)
    }

    /// Where a trace is wanted, it gets what was heard of a canister.
    pub(crate) fn heard(
        &self,
        world: World,
        id: &Principal,
        script: &mut Script,
    ) -> Result<World, NoMemory>
        ensures { IfOk result (λ after. after ≡ world) }
    {
        let mut world = world;
        if script.traces() {
            let heard = world.take_heard(self.alloc, id);
            script.hear(id, &heard)?;
        }
        Ok(world)
    }

    /// The message at a place is delivered. Where a trace is wanted, canisters are heard.
    pub fn delivered(
        &self,
        world: World,
        place: usize,
        script: &mut Script,
    ) -> Result<World, NoMemory>
        requires { place < length world.messages }
        ensures { IfOk result (λ after. after ≡ step (rules_of self.now.charge) world place) }
    {
        if !script.traces() {
            return delivered(self.alloc, world, place, self.charge);
        }
        let mut world = world;
        let ids = those_heard(self.alloc, &world, place)?;
        let before = burned(&world);
        tell(self.alloc, &world, place, script)?;
        listen_to(self.alloc, &mut world, &ids)?;
        let mut world = delivered(self.alloc, world, place, self.charge)?;
        hear(self.alloc, &mut world, &ids, script)?;
        script.burn(burned(&world).saturating_sub(before));
        Ok(world)
    }

    // The message at a place is delivered, if there is one.
    fn delivered_at(
        &self,
        world: World,
        place: usize,
        script: &mut Script,
    ) -> Result<World, NoMemory>
        ensures { IfOk result (λ after. after ≡ step (rules_of self.now.charge) world place) }
    {
        if place < message_count(&world) {
            self.delivered(world, place, script)
        } else {
            Ok(world)
        }
    }

    // The first message to each of these canisters is delivered.
    fn heard_turns(
        &self,
        world: World,
        ids: &[Principal],
        script: &mut Script,
    ) -> Result<World, NoMemory>
        ensures { IfOk result (λ after. after ≡ along (rules_of self.now.charge) world (turns (rules_of self.now.charge) world ids.now)) }
    {
        let mut world = world;
        for id in ids {
            let place = first_place(&world, id);
            world = self.delivered_at(world, place, script)?;
        }
        Ok(world)
    }

    // A message of the second phase is gone through: it is delivered, if it goes. Gives the place of the next one.
    fn swept(
        &self,
        world: World,
        place: usize,
        script: &mut Script,
    ) -> Result<(World, usize), NoMemory>
        requires { place + 1 < 2 ^ 64 }
        ensures goes { IfOk result (λ next. goes world place (slice_get world.messages place) ≡ true → (next.0 ≡ step (rules_of self.now.charge) world place) × (next.1 ≡ place)) }
        ensures stays { IfOk result (λ next. goes world place (slice_get world.messages place) ≡ false → (next.0 ≡ world) × (next.1 ≡ place + 1)) }
    {
        if goes(&world, place) {
            let world = self.delivered_at(world, place, script)?;
            Ok((world, place))
        } else {
            Ok((world, place + 1))
        }
    }

    // The second phase: this many messages are gone through.
    fn heard_sweep(
        &self,
        world: World,
        count: usize,
        script: &mut Script,
    ) -> Result<World, NoMemory>
        ensures { IfOk result (λ after. after ≡ along (rules_of self.now.charge) world (sweep (rules_of self.now.charge) count 0 world)) }
    {
        let mut world = world;
        let mut place = 0;
        for _ in 0..count {
            let (next, after) = self.swept(world, place, script)?;
            world = next;
            place = after;
        }
        Ok(world)
    }

    fn heard_round(&self, world: World, script: &mut Script) -> Result<World, NoMemory>
        ensures { IfOk result (λ after. after ≡ along (rules_of self.now.charge) world (round (rules_of self.now.charge) world)) }
    {
        let ids = busy(self.alloc, &world)?;
        let world = self.heard_turns(world, &ids, script)?;
        let count = message_count(&world);
        let world = self.heard_sweep(world, count, script)?;
        Ok(world)
    }

    /// Rounds until no message is left.
    pub(crate) fn heard_rounds(&self, world: World, script: &mut Script) -> Result<World, NoMemory>
        ensures { IfOk result (λ after. after ≡ along (rules_of self.now.charge) world (concat (rounds (rules_of self.now.charge) most_rounds world))) }
    {
        let mut world = world;
        for _ in 0..MOST_ROUNDS {
            if message_count(&world) == 0 {
                return Ok(world);
            }
            world = self.heard_round(world, script)?;
        }
        Ok(world)
    }
}
