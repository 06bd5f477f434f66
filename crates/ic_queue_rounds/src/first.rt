ghost use Rattle.std.specs.Prelude.{◌≡◌, IfOk};
ghost use Rattle.ic_behaviour.specs.Deliver.{Outside};
ghost use Rattle.ic_behaviour.specs.Steps.{along};
ghost use Rattle.ic_behaviour.specs.Round.{first_phase};
ghost use Rattle.ic_run_laws.specs.System.{system_rules};

use crate::drawn::draw_all;
use crate::queued::{QueuedWorld, ids};
use ic_base::NoMemory;
use ic_mgmt::taken_apart;
use ic_outside::Gate;
use ic_rounds::{Crew, handle_firsts};
use ic_state::Charge;
use std::alloc::Global;
use std::thread::Threads;

/// The first phase of a round. The first messages are drawn from the queues, where that of `ic_rounds` goes
/// through the list.
pub fn canister_turns<R: Threads + Sync, G: Gate + Sync>(
    alloc: Global,
    world: QueuedWorld,
    crew: &Crew<'_, R, G>,
    charge: Charge,
) -> Result<QueuedWorld, NoMemory>
    ensures { IfOk result (λ w. (outside : Outside)
        → w ≡ along (system_rules outside charge.limit charge.price) world
        (first_phase (system_rules outside charge.limit charge.price) world)) }
{
    let (rest, queues) = world.open();
    let keys = ids(alloc, &rest.canisters)?;
    let (firsts, queues) = draw_all(alloc, keys, queues)?.open();
    let env = charge.at(rest.time);
    let parts = handle_firsts(alloc, rest, firsts, crew, env)?;
    let (rest, sent) = taken_apart(alloc, parts);
    let queues = queues.append(alloc, sent)?;
    Ok(QueuedWorld::seal(rest, queues))
}
