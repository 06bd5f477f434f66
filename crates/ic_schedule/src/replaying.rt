ghost use Rattle.std.specs.Prelude.{◌≤◌, length, IfOk};
ghost use Rattle.ic_schedule.specs.Picks.{Picks};

use crate::delivering::deliver;
use crate::eligibility::eligible;
use crate::manager::Manager;
use ic_base::NoMemory;
use ic_state::{MOST_INSTRUCTIONS, World};
use std::alloc::Global;

/// Delivers the messages at the picked places, one after another, each where it is eligible in the
/// state as it then is. The first pick that is not ends the replay, and so do 1,000,000 picks. Gives
/// how many messages were delivered. `limit` is the most instructions that one execution or
/// installation may use, and `price` the cycles that an instruction of an execution costs.
pub fn replay<M: Manager>(
    alloc: Global,
    world: World,
    picks: &[u32],
    limit: u64,
    price: u64,
    manager: &M,
) -> Result<(World, u32), NoMemory>
    requires picks { length picks.now ≤ 1000000 }
    requires limit { limit ≤ MOST_INSTRUCTIONS }
    ensures { IfOk result (λ r. Picks (M.manages manager.now) limit price world picks.now r.0 r.1) }
{
    let mut world = world;
    let mut delivered = 0;
    for pick in picks {
        let place = *pick as usize;
        if !eligible(&world, place) {
            return Ok((world, delivered));
        }
        world = deliver(alloc, world, place, limit, price, manager)?;
        delivered += 1;
    }
    Ok((world, delivered))
}
