ghost use Rattle.std.specs.Prelude.{◌≡◌, IfOk};
ghost use Rattle.ic_behaviour.specs.Entry.{enters_by};
ghost use Rattle.ic_behaviour.specs.Local.{local};
ghost use Rattle.ic_api.specs.System.{system_api};
ghost use Rattle.ic_state.specs.Seen.{seen};
ghost use Rattle.ic_state.specs.IsCanister.{IsCanister};
ghost use Rattle.ic_exec.specs.Executed.{done_of};
ghost use Rattle.ic_deliver.specs.Giving.{CanHandle};

use ic_base::NoMemory;
use ic_exec::{Done, execute_in};
use ic_state::{BoundedEnv, CanisterPlace, Message};
use std::alloc::Global;

/// Gives a canister a message, which it handles where it stands. What it sends is still to be sent. After `NoMemory` a
/// part of the message may be done.
pub fn give(
    alloc: Global,
    place: &mut CanisterPlace,
    message: Message,
    env: BoundedEnv,
) -> Result<Done, NoMemory>
    requires ready { CanHandle place.old message }
    ensures done { IfOk result (λ d. done_of place.new d ≡ local (enters_by system_api) env (seen place.old) message) }
    ensures keeps { IsCanister place.new }
{
    execute_in(alloc, place.get_mut(), message, env)
}
