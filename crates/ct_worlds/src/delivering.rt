ghost use Rattle.std.specs.Prelude.{◌≡◌, ◌<◌, length, IfOk};
ghost use Rattle.ic_behaviour.specs.Steps.{step};
ghost use Rattle.ic_mgmt_laws.specs.Managed.{managed_rules};

use ic_base::NoMemory;
use ic_mgmt::manage;
use ic_schedule::{Manager, deliver};
use ic_state::{Charge, World};
use std::alloc::Global;

// The management canister, to which calls are carried out by `ic_mgmt`.
struct ManagementCanister;

impl Manager for ManagementCanister {
    ghost use Rattle.std.specs.Prelude.{◌≡◌, ℕ};
    ghost use Rattle.ic_behaviour.specs.Steps.{step};
    ghost use Rattle.ic_mgmt_laws.specs.Managed.{managed_rules};

    ghost manages = { λ m s place limit t. (price : ℕ) → t ≡ step (managed_rules limit price) s place };

    fn manage(
        &self,
        alloc: Global,
        world: World,
        place: usize,
        limit: u64,
    ) -> Result<World, NoMemory> {
        manage(alloc, world, place, limit)
    }
}

/// The world after the message at a place was delivered.
pub fn delivered(
    alloc: Global,
    world: World,
    place: usize,
    charge: Charge,
) -> Result<World, NoMemory>
    requires { place < length world.messages }
    ensures { IfOk result (λ after. after ≡ step (managed_rules charge.limit charge.price) world place) }
{
    let after = deliver(
        alloc,
        world,
        place,
        charge.limit,
        charge.price,
        &ManagementCanister,
    )?;
    Ok(after)
}
