ghost use Rattle.std.specs.Prelude.{◌≡◌, ◌<◌, ◌≤◌, false, Some, length, slice_get, IfOk};
ghost use Rattle.ic_behaviour.specs.Deliver.{Outside};
ghost use Rattle.ic_behaviour.specs.Steps.{step};
ghost use Rattle.ic_run_laws.specs.System.{system_rules};
ghost use Rattle.ic_schedule.specs.Delivery.{is_to_management, is_managed, Delivers};
ghost use Rattle.ic_schedule.specs.Handing.{left_by};

use crate::manager::Manager;
use ic_base::NoMemory;
use ic_calls::{callee, is_management};
use ic_state::{Charge, MOST_INSTRUCTIONS, Message, Parts, World};
use std::alloc::Global;

fn is_to_management(message: &Message) -> bool
    ensures { result ≡ is_to_management message.now }
{
    match message {
        Message::Call { callee, .. } => is_management(callee),
        Message::Answer { .. } => false,
    }
}

/// Whether a call to the management canister is at the place.
pub fn is_managed(world: &World, place: usize) -> bool
    ensures { result ≡ is_managed world.now place }
{
    match world.parts().messages.items.get(place) {
        Some(message) => is_to_management(message),
        None => false,
    }
}

fn take_out(parts: Parts, place: usize) -> (Parts, Message)
    requires { place < length parts.messages }
    ensures left { result.0 ≡ left_by parts place }
    ensures message { slice_get parts.messages place ≡ Some result.1 }
{
    let mut parts = parts;
    let message = parts.messages.items.remove(place);
    (parts, message)
}

// Delivers a message that is no call to the management canister.
fn hand_over(alloc: Global, world: World, place: usize, charge: Charge) -> Result<World, NoMemory>
    requires there { place < length world.messages }
    requires other { is_managed world place ≡ false }
    ensures { IfOk result (λ w. (outside : Outside) → w ≡ step (system_rules outside charge.limit charge.price) world place) }
{
    let (mut parts, message) = take_out(world.open(), place);
    let callee = callee(&message);
    let env = charge.at(parts.time);
    ic_deliver::deliver(alloc, &mut parts, &callee, message, env)?;
    Ok(World::seal(parts))
}

/// Delivers the message at a place, whichever messages come before it. `limit` is the most instructions that the
/// execution or installation may use, and `price` the cycles that an instruction of an execution costs.
pub fn deliver<M: Manager>(
    alloc: Global,
    world: World,
    place: usize,
    limit: u64,
    price: u64,
    manager: &M,
) -> Result<World, NoMemory>
    requires limit { limit ≤ MOST_INSTRUCTIONS }
    requires there { place < length world.messages }
    ensures { IfOk result (λ w. Delivers (M.manages manager.now) limit price world place w) }
{
    if is_managed(&world, place) {
        manager.manage(alloc, world, place, limit)
    } else {
        hand_over(alloc, world, place, Charge { limit, price })
    }
}
