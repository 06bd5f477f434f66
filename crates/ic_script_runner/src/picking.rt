ghost use Rattle.std.specs.Prelude.{◌≡◌, IfOk};
ghost use Rattle.ic_schedule.specs.Picks.{is_eligible, picked};
ghost use Rattle.ic_script_runner.specs.Options.{rules_of};
ghost use Rattle.ic_options.specs.Options.{HasBounds};

use ic_base::NoMemory;
use ic_options::Options;
use ic_queue_rounds::{QueuedWorld, pick};
use ic_state::Charge;
use std::alloc::Global;

/// Delivers the message at a place, where it is eligible: the world after it, and whether it was.
pub fn picked(
    alloc: Global,
    options: &Options,
    world: QueuedWorld,
    place: u32,
) -> Result<(QueuedWorld, bool), NoMemory>
    requires { HasBounds options.now }
    ensures state { IfOk result (λ r. r.0 ≡ picked (rules_of options.now) world place) }
    ensures eligible { IfOk result (λ r. r.1 ≡ is_eligible world place) }
{
    let charge = Charge {
        limit: options.limit,
        price: options.price,
    };
    pick(alloc, world, place as usize, charge)
}
