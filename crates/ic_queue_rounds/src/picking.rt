ghost use Rattle.std.specs.Prelude.{◌≡◌, ◌<◌, ◌∷◌, List, length, IfOk};
ghost use Rattle.ic_behaviour.specs.declared.call.Message.{Message as AMessage};
ghost use Rattle.ic_behaviour.specs.Steps.{step};
ghost use Rattle.ic_state.specs.IsWorld.{IsWorld};
ghost use Rattle.ic_mgmt_laws.specs.Managed.{managed_rules};
ghost use Rattle.ic_mgmt.specs.Sweeping.{among, Meets};
ghost use Rattle.ic_schedule.specs.Picks.{is_eligible, picked};
ghost use Rattle.ic_queue_rounds.specs.Picking.{DeliversAt};

use crate::queued::QueuedWorld;
use ic_base::NoMemory;
use ic_calls::callee;
use ic_deliver::deliver;
use ic_mgmt::{deliver_outside, taken_apart};
use ic_state::{Charge, Message, Parts};
use std::alloc::Global;

/// Delivers the message at a place of the list, where it is eligible: the world after it, and whether it was.
pub fn pick(
    alloc: Global,
    world: QueuedWorld,
    place: usize,
    charge: Charge,
) -> Result<(QueuedWorld, bool), NoMemory>
    ensures state { IfOk result (λ r. r.0 ≡ picked (managed_rules charge.limit charge.price) world place) }
    ensures eligible { IfOk result (λ r. r.1 ≡ is_eligible world place) }
{
    let world = renewed(alloc, world)?;
    if !world.is_eligible(place) {
        return Ok((world, false));
    }
    let world = deliver_at(alloc, world, place, charge)?;
    Ok((world, true))
}

// The same world, whose messages are put into queues anew where there is much room between them.
fn renewed(alloc: Global, world: QueuedWorld) -> Result<QueuedWorld, NoMemory>
    ensures { IfOk result (λ w. w ≡ world) }
{
    if world.is_sparse() {
        QueuedWorld::new(alloc, world.into_world(alloc)?)
    } else {
        Ok(world)
    }
}

// Delivers the message at a place.
fn deliver_at(
    alloc: Global,
    world: QueuedWorld,
    place: usize,
    charge: Charge,
) -> Result<QueuedWorld, NoMemory>
    requires { place < length world.messages }
    ensures { IfOk result (λ w. w ≡ step (managed_rules charge.limit charge.price) world place) }
{
    let (rest, mut queues) = world.open();
    match queues.take_at(place) {
        Some(message) => {
            let rest = delivered(alloc, rest, message, charge)?;
            let (rest, sent) = taken_apart(alloc, rest);
            let queues = queues.append(alloc, sent)?;
            QueuedWorld::close(alloc, rest, queues)
        }
        // There is one.
        None => Ok(QueuedWorld::seal(rest, queues)),
    }
}

// Delivers a message that has left the list. The others are elsewhere; what is sent comes last in the list of the parts.
fn delivered(
    alloc: Global,
    rest: Parts,
    message: Message,
    charge: Charge,
) -> Result<Parts, NoMemory>
    requires next { (kept : List AMessage) × Meets kept message rest }
    ensures { IfOk result (λ q. (kept todo : List AMessage) → IsWorld (among kept (message ∷ todo) rest)
        → DeliversAt charge.limit charge.price kept message todo rest q) }
{
    let callee = callee(&message);
    if !rest.canisters.contains_key(&callee) {
        return deliver_outside(alloc, rest, message, charge.limit);
    }
    let mut rest = rest;
    let env = charge.at(rest.time);
    deliver(alloc, &mut rest, &callee, message, env)?;
    Ok(rest)
}
