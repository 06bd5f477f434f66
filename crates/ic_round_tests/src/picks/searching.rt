use crate::canisters::relaying;
use crate::picks::keeping::asked;
use ct_search::explore;
use ct_worlds::{NamedWorld, WorldKeeper, Worlds};
use ic_base::NoMemory;
use ic_keep::Kept;
use ic_principal::Principal;
use ic_state::{Charge, World};
use std::alloc::{AllocError, Global};
use std::test::*;

// Two users call a canister, which is to call one that is not there.
fn relayed_twice(alloc: Global) -> Result<World, NoMemory> {
    match relaying(alloc, 0) {
        Some(first) => {
            let (one, two) = (Principal::canister_id(0), Principal::canister_id(1));
            let world = World::new(alloc).add(first)?;
            let world = asked(alloc, world, 9, one, two.bytes())?;
            asked(alloc, world, 8, one, two.bytes())
        }
        None => Err(AllocError),
    }
}

// How many cases are met, and whether they are all.
fn cases_met(alloc: Global) -> Result<(usize, bool), NoMemory> {
    let world = relayed_twice(alloc)?;
    let mut keeper = WorldKeeper::new(alloc);
    let kept = keeper.keep(alloc, world, &Kept::empty(alloc), false)?;
    let mut starts = Vec::new(alloc);
    starts.push(NamedWorld { names: 0, kept })?;
    let charge = Charge {
        limit: 50_000_000,
        price: 0,
    };
    let met = explore(alloc, &Worlds { charge }, &mut keeper, starts, 100)?;
    Ok((met.cases.len(), met.all))
}

// Each call is delivered, and then the call that it makes, and the answer to that. While one user's call waits there are 4
// cases, and for the other one 3 more. Where both calls were delivered, in either order, the call that was made second is not
// answered before that made first is: 7 cases each, of which the last is one.
#[test]
fn orders_of_two_calls(rt: HostRuntime) -> Result<(), NoMemory> {
    assert_eq!(rt; cases_met(rt.alloc())?, (20, true));
    Ok(())
}
