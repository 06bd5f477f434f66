ghost use Rattle.std.specs.Prelude.{◌≡◌, ◌≤◌, ℕ, slice_get, IfOk};
ghost use Rattle.std.specs.Option.{MatchOption};
ghost use Rattle.ic_behaviour.specs.Steps.{step};
ghost use Rattle.ic_mgmt_laws.specs.Managed.{managed_rules};
ghost use Rattle.ic_mgmt.specs.ToManagement.{IsToManagement};

use crate::outside::deliver_outside;
use crate::parts::{put_together, taken_apart};
use ic_base::NoMemory;
use ic_state::{MOST_INSTRUCTIONS, World};
use std::alloc::Global;

/// Carries out the call to the management canister that is at a place of the list of messages.
/// `limit` is the most instructions that an installation may use; nothing is charged.
pub fn manage(alloc: Global, world: World, place: usize, limit: u64) -> Result<World, NoMemory>
    requires limit { limit ≤ MOST_INSTRUCTIONS }
    requires call { MatchOption (slice_get world.messages place) ⊥ IsToManagement }
    ensures { IfOk result (λ w. (price : ℕ) → w ≡ step (managed_rules limit price) world place) }
{
    let (rest, mut messages) = taken_apart(alloc, world.open());
    let message = messages.items.remove(place);
    let rest = deliver_outside(alloc, rest, message, limit)?;
    let parts = put_together(messages, rest)?;
    Ok(World::seal(parts))
}
