ghost use Rattle.std.specs.Prelude.{◌≡◌, ◌≤◌, true, IfOk};
ghost use Rattle.ic_schedule.specs.Delivery.{Manages, is_managed};

use ic_base::NoMemory;
use ic_state::{MOST_INSTRUCTIONS, World};
use std::alloc::Global;

/// What carries out calls to the management canister.
pub trait Manager {
    ghost manages: { Self → Manages };

    /// Carries out the call to the management canister that is at a place of the list of messages.
    /// `limit` is the most instructions that an installation may use.
    fn manage(
        &self,
        alloc: Global,
        world: World,
        place: usize,
        limit: u64,
    ) -> Result<World, NoMemory>
        requires limit { limit ≤ MOST_INSTRUCTIONS }
        requires call { is_managed world place ≡ true }
        ensures { IfOk result (λ w. manages self.now world place limit w) };
}
