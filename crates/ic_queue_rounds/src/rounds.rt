ghost use Rattle.std.specs.Prelude.{◌≡◌, ◌+◌, ◌-◌, ◌<◌, ◌≤◌, true, length, IfOk};
ghost use Rattle.std.specs.List.{concat};
ghost use Rattle.ic_behaviour.specs.Steps.{along};
ghost use Rattle.ic_behaviour.specs.Round.{round, rounds};
ghost use Rattle.ic_mgmt_laws.specs.Managed.{managed_rules};
ghost use Rattle.ic_queue_rounds.specs.Rounds.{after_rounds, rounds_made};

use crate::first::canister_turns;
use crate::over_list::round;
use crate::queued::QueuedWorld;
use crate::second::outside_turns;
use ic_base::NoMemory;
use ic_outside::Gate;
use ic_rounds::{Crew, MOST_WORKERS};
use ic_state::{Charge, MOST_INSTRUCTIONS, World};
use std::alloc::Global;
use std::thread::Threads;

/// Fewer rounds cost less over the list than it costs to put its messages into queues and to give the
/// list back: a script that makes a round or two a line would else pay for all messages at each line.
const FEW: u32 = 8;

/// A list of at most this many messages is gone through sooner than the queues of 64 canisters are looked
/// at: a script that drains after each line would else make queues at each line.
const SHORT: usize = 64;

/// A round over queues; `round` goes through the list. This one is public for its tests: the program calls
/// `run_rounds`.
pub fn round_in_queues<R: Threads + Sync, G: Gate + Sync>(
    alloc: Global,
    world: QueuedWorld,
    crew: &Crew<'_, R, G>,
    charge: Charge,
) -> Result<QueuedWorld, NoMemory>
    ensures { IfOk result (λ w. w
        ≡ along (managed_rules charge.limit charge.price) world
        (round (managed_rules charge.limit charge.price) world)) }
{
    let world = canister_turns(alloc, world, crew, charge)?;
    outside_turns(alloc, world, charge)
}

/// Up to `count` rounds over queues, until no message is under way. Gives how many were made.
pub fn rounds_in_queues<R: Threads + Sync, G: Gate + Sync>(
    alloc: Global,
    world: QueuedWorld,
    count: u32,
    crew: &Crew<'_, R, G>,
    charge: Charge,
) -> Result<(QueuedWorld, u32), NoMemory>
    ensures state { IfOk result (λ r. r.0 ≡ after_rounds charge.limit charge.price count world) }
    ensures made { IfOk result (λ r. r.1 ≡ rounds_made charge.limit charge.price count world) }
    ensures few { IfOk result (λ r. r.1 ≤ count) }
{
    let mut world = world;
    for made in 0..count {
        if world.is_empty() {
            return Ok((world, made));
        }
        world = round_in_queues(alloc, world, crew, charge)?;
    }
    Ok((world, count))
}

// Whether messages are under way, and at most this many.
fn has_messages(world: &World, most: usize) -> bool
    ensures { result ≡ true → 0 < length world.now.messages }
{
    let messages = world.parts().messages.items.len();
    0 < messages && messages <= most
}

// Rounds over the list, as long as it has messages and at most `most`: at most `count`, and what is left to do leads to
// the end of `count` rounds.
fn listed_rounds<R: Threads + Sync, G: Gate + Sync>(
    alloc: Global,
    world: World,
    count: u32,
    most: usize,
    crew: &Crew<'_, R, G>,
    charge: Charge,
) -> Result<(World, u32), NoMemory>
    ensures state { IfOk result (λ r. after_rounds charge.limit charge.price (count - r.1) r.0
        ≡ after_rounds charge.limit charge.price count world) }
    ensures made { IfOk result (λ r. r.1 + rounds_made charge.limit charge.price (count - r.1) r.0
        ≡ rounds_made charge.limit charge.price count world) }
    ensures few { IfOk result (λ r. r.1 ≤ count) }
{
    let mut world = world;
    for made in 0..count {
        if !has_messages(&world, most) {
            return Ok((world, made));
        }
        let (next, _) = round(
            alloc,
            crew.rt,
            world,
            crew.workers,
            charge.limit,
            charge.price,
            crew.gate,
        )?;
        world = next;
    }
    Ok((world, count))
}

// Up to `count` rounds over queues, whose messages are put into them first and given back at the end.
fn long_rounds<R: Threads + Sync, G: Gate + Sync>(
    alloc: Global,
    world: World,
    count: u32,
    crew: &Crew<'_, R, G>,
    charge: Charge,
) -> Result<(World, u32), NoMemory>
    ensures state { IfOk result (λ r. r.0 ≡ after_rounds charge.limit charge.price count world) }
    ensures made { IfOk result (λ r. r.1 ≡ rounds_made charge.limit charge.price count world) }
    ensures few { IfOk result (λ r. r.1 ≤ count) }
{
    if count == 0 {
        return Ok((world, 0));
    }
    if world.parts().messages.is_empty() {
        return Ok((world, 0));
    }
    let world = QueuedWorld::new(alloc, world)?;
    let (world, made) = rounds_in_queues(alloc, world, count, crew, charge)?;
    Ok((world.into_world(alloc)?, made))
}

/// Up to `count` rounds, until no message is under way. Gives how many were made.
pub fn run_rounds<R: Threads + Sync, G: Gate + Sync>(
    alloc: Global,
    rt: &R,
    world: World,
    count: u32,
    workers: u32,
    limit: u64,
    price: u64,
    gate: &G,
) -> Result<(World, u32), NoMemory>
    requires workers { (0 < workers) × (workers ≤ MOST_WORKERS) }
    requires limit { limit ≤ MOST_INSTRUCTIONS }
    ensures state { IfOk result (λ r. r.0
        ≡ along (managed_rules limit price) world
        (concat (rounds (managed_rules limit price) count world))) }
    ensures made { IfOk result (λ r. r.1
        ≡ length (rounds (managed_rules limit price) count world)) }
{
    let crew = Crew { rt, workers, gate };
    let charge = Charge { limit, price };
    let most = if count < FEW { usize::MAX } else { SHORT };
    let (world, made) = listed_rounds(alloc, world, count, most, &crew, charge)?;
    let (world, more) = long_rounds(alloc, world, count - made, &crew, charge)?;
    Ok((world, made + more))
}
