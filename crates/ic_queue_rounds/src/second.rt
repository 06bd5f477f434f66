ghost use Rattle.std.specs.Prelude.{◌≡◌, ◌<◌, ℕ, true, false, length, IfOk};
ghost use Rattle.std.specs.List.{list_all};
ghost use Rattle.std.specs.Map.{keys_of};
ghost use Rattle.ic_behaviour.specs.Steps.{along};
ghost use Rattle.ic_behaviour.specs.Round.{second_phase};
ghost use Rattle.ic_state.specs.declared.world.Parts.{Parts as TheParts};
ghost use Rattle.ic_state.specs.Seen.{state_of};
ghost use Rattle.ic_state.specs.IsWorld.{IsWorld};
ghost use Rattle.ic_mgmt_laws.specs.Managed.{managed_rules};
ghost use Rattle.ic_mgmt.specs.Sweeping.{among};
ghost use Rattle.ic_queues.specs.Queued.{is_inside};
ghost use Rattle.ic_queue_rounds.specs.Passing.{Passing, IsPassing, Facing, IsFacing};

use crate::queued::QueuedWorld;
use ic_base::NoMemory;
use ic_mgmt::{deliver_outside, taken_apart};
use ic_queues::{Walk, is_steady};
use ic_state::{Charge, Message, Parts};
use std::alloc::Global;

/// How far a second phase has come: a walk down the messages that were there before, and all else, with the new messages.
#[derive(Drop)]
struct Passed {
    walk: Walk,
    rest: Parts,
}

// Delivers the message that the walk has taken. Where it may have made or deleted a canister, the walk goes on with the
// canisters that are there now.
fn pass(
    alloc: Global,
    walk: Walk,
    rest: Parts,
    message: Message,
    limit: u64,
) -> Result<Passed, NoMemory>
    requires facing { IsFacing limit walk message rest }
    ensures passing { IfOk result (λ w. (start : TheParts) → Facing limit start walk message rest → Passing limit start w.walk w.rest) }
    ensures todo { IfOk result (λ w. w.walk.todo ≡ walk.todo) }
{
    if is_steady(&message) {
        let rest = deliver_outside(alloc, rest, message, limit)?;
        return Ok(Passed { walk, rest });
    }
    let rest = deliver_outside(alloc, rest, message, limit)?;
    let walk = walk.with_canisters(alloc, &rest.canisters)?;
    Ok(Passed { walk, rest })
}

// Goes on to the next message to no canister, and delivers it, unless it stays.
fn step(alloc: Global, walk: Walk, rest: Parts, limit: u64) -> Result<Passed, NoMemory>
    requires passing { IsPassing limit walk rest }
    requires more { list_all (is_inside walk.canisters) walk.todo ≡ false }
    ensures passing { IfOk result (λ w. (start : TheParts) → Passing limit start walk rest → Passing limit start w.walk w.rest) }
    ensures fewer { IfOk result (λ w. length w.walk.todo < length walk.todo) }
{
    let (walk, message) = walk.next()?;
    match message {
        Some(message) => pass(alloc, walk, rest, message, limit),
        None => Ok(Passed { walk, rest }),
    }
}

// Goes on until each message to come is to a canister.
fn pass_all(alloc: Global, walk: Walk, rest: Parts, limit: u64) -> Result<Passed, NoMemory>
    requires passing { IsPassing limit walk rest }
    ensures passing { IfOk result (λ w. (start : TheParts) → Passing limit start walk rest → Passing limit start w.walk w.rest) }
    ensures over { IfOk result (λ w. list_all (is_inside w.walk.canisters) w.walk.todo ≡ true) }
{
    let mut walk = walk;
    let mut rest = rest;
    while !walk.is_over() {
        let Passed {
            walk: next,
            rest: after,
        } = step(alloc, walk, rest, limit)?;
        walk = next;
        rest = after;
    }
    Ok(Passed { walk, rest })
}

// All messages that were not delivered stay.
fn finish(alloc: Global, walk: Walk, rest: Parts) -> Result<QueuedWorld, NoMemory>
    requires over { list_all (is_inside walk.canisters) walk.todo ≡ true }
    requires keeps { IsWorld (among walk.kept walk.todo rest) }
    requires canisters { keys_of rest.canisters.entries ≡ walk.canisters }
    ensures { IfOk result (λ w. w ≡ state_of (among walk.kept walk.todo rest)) }
{
    let (rest, sent) = taken_apart(alloc, rest);
    let queues = walk.finish().append(alloc, sent)?;
    Ok(QueuedWorld::seal(rest, queues))
}

/// The second phase of a round: a walk down the messages, which looks at no message to a canister. Where one in truth makes
/// or deletes a canister, the messages to this canister change their queue.
pub fn outside_turns(
    alloc: Global,
    world: QueuedWorld,
    charge: Charge,
) -> Result<QueuedWorld, NoMemory>
    ensures { IfOk result (λ w. (price : ℕ)
        → w ≡ along (managed_rules charge.limit price) world (second_phase (managed_rules charge.limit price) world)) }
{
    let (rest, queues) = world.open();
    let walk = queues.walk(alloc);
    let Passed { walk, rest } = pass_all(alloc, walk, rest, charge.limit)?;
    finish(alloc, walk, rest)
}
