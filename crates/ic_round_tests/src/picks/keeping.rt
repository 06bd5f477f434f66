use crate::canisters::relaying;
use crate::picks::managing::Management;
use ic_base::NoMemory;
use ic_behaviour::{Mode, Response};
use ic_keep::{Keeper, Kept, growth_keeps};
use ic_mgmt_requests::{canister_named, creation_argument, installation_argument};
use ic_principal::{Bytes, Principal, Text};
use ic_schedule::replay;
use ic_state::World;
use std::alloc::{AllocError, Global};
use std::test::*;

/// The user with this number calls, if there are fewer than 1,000 calls.
fn called(
    alloc: Global,
    world: World,
    user: u64,
    callee: Principal,
    method: &str,
    arg: &[u8],
) -> Result<World, NoMemory> {
    if world.parts().requests.len() >= 1000 {
        return Err(AllocError);
    }
    let method = Text {
        items: String::from_str(alloc, method)?,
    };
    let arg = Bytes {
        items: Vec::from_slice(alloc, arg)?,
    };
    world.submit(Principal::canister_id(user), callee, method, arg)
}

/// The user with this number calls `relay`, if there are fewer than 1,000 calls.
pub(crate) fn asked(
    alloc: Global,
    world: World,
    user: u64,
    callee: Principal,
    arg: &[u8],
) -> Result<World, NoMemory> {
    called(alloc, world, user, callee, "relay", arg)
}

// Two users call each a canister that is not there: which ones, the seed says.
fn two_calls(alloc: Global, seed: u64) -> Result<World, NoMemory> {
    let arg = seed.to_le_bytes();
    let one = Principal::canister_id(seed % 3);
    let two = Principal::canister_id(seed / 3 % 3);
    let world = asked(alloc, World::new(alloc), seed % 5, one, &arg)?;
    asked(alloc, world, 5 + seed % 7, two, &arg)
}

// The first of two canisters is to call the other.
fn relayed(alloc: Global) -> Result<World, NoMemory> {
    match relaying(alloc, 0) {
        Some(first) => {
            let world = World::new(alloc).add(first)?;
            asked(
                alloc,
                world,
                9,
                Principal::canister_id(0),
                Principal::canister_id(1).bytes(),
            )
        }
        None => Err(AllocError),
    }
}

// The picks, at most 1,000 of them.
fn moved(alloc: Global, world: World, picks: &[u32]) -> Result<World, NoMemory> {
    if picks.len() > 1000 {
        return Err(AllocError);
    }
    let (world, _) = replay(alloc, world, picks, 50_000_000, 0, &Management)?;
    Ok(world)
}

// Whether both orders of two calls lead to one state, and to another one than they begin with.
fn is_one_state(alloc: Global, seed: u64) -> Result<bool, NoMemory> {
    growth_keeps();
    let mut keeper = Keeper::new(alloc);
    let begun = two_calls(alloc, seed)?;
    let first = keeper.keep(alloc, &begun, &Kept::empty(alloc), false)?;
    let forth = moved(alloc, begun, &[0, 0])?;
    let kept_forth = keeper.keep(alloc, &forth, &first, false)?;
    let back = moved(alloc, keeper.make(alloc, &first)?, &[1, 0])?;
    let kept_back = keeper.keep(alloc, &back, &kept_forth, false)?;
    Ok(keeper.same(&kept_forth, &kept_back) && !keeper.same(&first, &kept_back))
}

// Whether a world that is turned back goes the same way again.
fn is_turned_back(alloc: Global) -> Result<bool, NoMemory> {
    growth_keeps();
    let mut keeper = Keeper::new(alloc);
    let begun = relayed(alloc)?;
    let first = keeper.keep(alloc, &begun, &Kept::empty(alloc), false)?;
    let done = moved(alloc, begun, &[0, 0])?;
    let last = keeper.keep(alloc, &done, &first, false)?;
    let back = keeper.turn(alloc, done, &last, &first)?;
    let again = moved(alloc, back, &[0, 0])?;
    let end = keeper.keep(alloc, &again, &first, false)?;
    Ok(keeper.same(&last, &end) && !keeper.same(&first, &last))
}

fn management() -> Principal {
    Principal::from_bytes(b"").unwrap_or(Principal::canister_id(1))
}

// A user asks for a canister with seven cycles.
fn creating(alloc: Global) -> Result<World, NoMemory> {
    let arg = creation_argument(alloc, Some(7))?;
    let method = "provisional_create_canister_with_cycles";
    called(
        alloc,
        World::new(alloc),
        9,
        management(),
        method,
        &arg.items,
    )
}

// The user gives the canister a module without functions.
fn installing(alloc: Global, world: World, id: Principal) -> Result<World, NoMemory> {
    let wasm = Bytes {
        items: Vec::from_slice(alloc, b"\0asm\x01\0\0\0")?,
    };
    let nothing = Bytes {
        items: Vec::new(alloc),
    };
    let arg = installation_argument(alloc, Mode::Install, id, &wasm, nothing)?;
    called(alloc, world, 9, management(), "install_code", &arg.items)
}

// The reply to the call with this number.
fn reply_to(world: &World, number: usize) -> Option<&Bytes> {
    match &world.parts().requests.items.get(number)?.answer {
        Some(Response::Reply(bytes)) => Some(bytes),
        _ => None,
    }
}

// Gives code to the canister that the first call made, if it made one.
fn installed(alloc: Global, world: World) -> Result<World, NoMemory> {
    let id = match reply_to(&world, 0) {
        Some(bytes) => canister_named(alloc, bytes)?,
        None => None,
    };
    match id {
        Some(id) => installing(alloc, world, id),
        None => Ok(world),
    }
}

// Whether a user makes a canister with seven cycles and gives it code.
fn is_made(alloc: Global) -> Result<bool, NoMemory> {
    let world = moved(alloc, creating(alloc)?, &[0, 0])?;
    let world = moved(alloc, installed(alloc, world)?, &[0, 0])?;
    Ok(world.totals().created == 7 && reply_to(&world, 1).is_some())
}

// Seeds that a linear congruence gives.
#[test]
fn orders_of_independent_calls_are_one(rt: HostRuntime) -> Result<(), NoMemory> {
    let mut seed = 7u64;
    for _ in 0..20 {
        seed = seed
            .wrapping_mul(6_364_136_223_846_793_005)
            .wrapping_add(1_442_695_040_888_963_407);
        assert!(rt; is_one_state(rt.alloc(), seed >> 33)?);
    }
    Ok(())
}

#[test]
fn worlds_are_turned_back(rt: HostRuntime) -> Result<(), NoMemory> {
    assert!(rt; is_turned_back(rt.alloc())?);
    Ok(())
}

#[test]
fn canisters_are_made(rt: HostRuntime) -> Result<(), NoMemory> {
    assert!(rt; is_made(rt.alloc())?);
    Ok(())
}
