use ic_base::NoMemory;
use ic_mgmt::manage;
use ic_schedule::Manager;
use ic_state::World;
use std::alloc::Global;

/// The management canister.
pub struct Management;

impl Manager for Management {
    ghost use Rattle.std.specs.Prelude.{◌≡◌, ℕ};
    ghost use Rattle.ic_behaviour.specs.Steps.{step};
    ghost use Rattle.ic_mgmt_laws.specs.Managed.{managed_rules};

    ghost manages = { λ m s place limit t. (price : ℕ) → t ≡ step (managed_rules limit price) s place };

    fn manage(
        &self,
        alloc: Global,
        world: World,
        place: usize,
        limit: u64,
    ) -> Result<World, NoMemory> {
        manage(alloc, world, place, limit)
    }
}
