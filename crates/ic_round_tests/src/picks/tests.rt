use crate::picks::managing::Management;
use ic_base::NoMemory;
use ic_order::next_places;
use ic_principal::{Bytes, Principal, Text};
use ic_schedule::{eligible, replay};
use ic_state::World;
use std::alloc::{AllocError, Global};

// The user with this number calls, if there are fewer than 1,000 calls.
fn called(alloc: Global, world: World, user: u64, callee: Principal) -> Result<World, NoMemory> {
    if world.parts().requests.len() >= 1000 {
        return Err(AllocError);
    }
    let method = Text {
        items: String::new(alloc),
    };
    let arg = Bytes {
        items: Vec::new(alloc),
    };
    world.submit(Principal::canister_id(user), callee, method, arg)
}

// Two users call two canisters and the management canister.
fn calls(alloc: Global) -> Result<World, NoMemory> {
    let (one, two) = (Principal::canister_id(0), Principal::canister_id(1));
    let management = Principal::from_bytes(b"").unwrap_or(two);
    let mut world = World::new(alloc);
    for (user, callee) in [(9, one), (8, one), (9, two), (8, one), (9, management)] {
        world = called(alloc, world, user, callee)?;
    }
    Ok(world)
}

// The picks, at most 1,000,000 of them.
fn picked(alloc: Global, world: World, picks: &[u32]) -> Result<(World, u32), NoMemory> {
    if picks.len() > 1_000_000 {
        return Err(AllocError);
    }
    replay(alloc, world, picks, 50_000_000, 0, &Management)
}

fn is_drained(alloc: Global, world: World) -> bool {
    match picked(alloc, world, &[0, 0]) {
        Ok((world, count)) => count == 1 && world.drained(),
        Err(_) => false,
    }
}

fn are_picked(alloc: Global, world: World) -> bool {
    match picked(alloc, world, &[4, 2, 1, 1, 1]) {
        Ok((world, count)) => count == 4 && is_drained(alloc, world),
        Err(_) => false,
    }
}

// The calls of users may come in any order.
fn all_may_come(alloc: Global, world: &World) -> bool {
    match next_places(alloc, &world.parts().messages.items) {
        Ok(places) => places.as_slice() == [0, 1, 2, 3, 4].as_slice(),
        Err(_) => false,
    }
}

fn are_delivered(alloc: Global) -> bool {
    match calls(alloc) {
        Ok(world) => {
            let seen = [0, 1, 2, 3, 4, 5].map(|place| eligible(&world, place));
            seen == [true, true, true, false, true, false]
                && all_may_come(alloc, &world)
                && are_picked(alloc, world)
        }
        Err(_) => false,
    }
}

// Only an earlier message of the same sender to the same callee is in the way of a pick.
#[test]
fn of_two_users(rt: HostRuntime) {
    assert!(rt; are_delivered(rt.alloc()));
}
