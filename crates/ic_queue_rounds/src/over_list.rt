ghost use Rattle.std.specs.Prelude.{◌≡◌, ◌<◌, ◌≤◌, length, IfOk};
ghost use Rattle.ic_behaviour.specs.Steps.{along};
ghost use Rattle.ic_behaviour.specs.Round.{round};
ghost use Rattle.ic_mgmt_laws.specs.Managed.{managed_rules};

use ic_base::NoMemory;
use ic_mgmt::outside_turns;
use ic_outside::Gate;
use ic_rounds::{MOST_WORKERS, canister_turns};
use ic_state::{MOST_INSTRUCTIONS, World};
use std::alloc::Global;
use std::thread::Threads;

/// A round: each canister that has a message handles its first one, in rising id, and then messages
/// to no canister, the management canister among these, are handled down the list. Gives the number of
/// messages that were handled, at least one where a message is under way. Canisters are worked on by up
/// to `workers` workers, which pass the gate as `canister_turns` says. `limit` is the most instructions
/// that one execution or installation may use, and `price` the cycles that an instruction of an execution
/// costs.
pub fn round<R: Threads + Sync, G: Gate + Sync>(
    alloc: Global,
    rt: &R,
    world: World,
    workers: u32,
    limit: u64,
    price: u64,
    gate: &G,
) -> Result<(World, u64), NoMemory>
    requires workers { (0 < workers) × (workers ≤ MOST_WORKERS) }
    requires limit { limit ≤ MOST_INSTRUCTIONS }
    ensures state { IfOk result (λ r. r.0
        ≡ along (managed_rules limit price) world
        (round (managed_rules limit price) world)) }
    ensures handled { IfOk result (λ r. r.1
        ≡ length (round (managed_rules limit price) world)) }
{
    let (world, first) = canister_turns(alloc, rt, world, workers, limit, price, gate)?;
    let (world, second) = outside_turns(alloc, world, limit)?;
    Ok((world, first + second))
}
