use crate::canisters::relaying;
use crate::digest::digest_by_ways;
use crate::picks::keeping::asked;
use ct_search::explore;
use ct_worlds::{NamedWorld, WorldKeeper, Worlds, delivered};
use ic_base::NoMemory;
use ic_keep::{Keeper, Kept, growth_keeps};
use ic_order::next_places;
use ic_principal::Principal;
use ic_state::{Charge, World};
use std::alloc::{AllocError, Global};
use std::test::*;

/// The most orders that are enumerated of one system, and the most cases that are met.
const MOST: usize = 10_000;

/// What may run of one message, and that it is free.
const CHARGE: Charge = Charge {
    limit: 50_000_000,
    price: 0,
};

// A user calls a canister, which is to call another one, or nobody where there is none with the number.
fn called(
    alloc: Global,
    world: World,
    user: u64,
    callee: u64,
    other: u64,
) -> Result<World, NoMemory> {
    let id = Principal::canister_id(other);
    let arg: &[u8] = if other < 3 { id.bytes() } else { &[] };
    asked(alloc, world, user, Principal::canister_id(callee), arg)
}

// Two canisters that pass calls on.
fn relaying_two(alloc: Global) -> Option<World> {
    let first = relaying(alloc, 0)?;
    let world = World::new(alloc).add(first).ok()?;
    let second = relaying(alloc, 1)?;
    world.add(second).ok()
}

// They get two or three calls: which ones, the seed says. The third canister that may be called is not there.
fn system(alloc: Global, seed: u64) -> Result<World, NoMemory> {
    let world = relaying_two(alloc).ok_or(AllocError)?;
    let world = called(alloc, world, 7, seed % 2, seed / 2 % 4)?;
    let world = called(alloc, world, 8, seed / 8 % 2, seed / 16 % 4)?;
    if seed % 5 == 0 {
        called(alloc, world, 9, seed / 64 % 2, 3)
    } else {
        Ok(world)
    }
}

// The world that an order leads to.
fn along(alloc: Global, seed: u64, order: &[usize]) -> Result<World, NoMemory> {
    let mut world = system(alloc, seed)?;
    for place in order {
        if *place >= world.parts().messages.items.len() {
            return Err(AllocError);
        }
        world = delivered(alloc, world, *place, CHARGE)?;
    }
    Ok(world)
}

// The order with more places.
fn longer(alloc: Global, order: &[usize], more: &[usize]) -> Result<Vec<usize>, NoMemory> {
    let mut all = order.to_vec(alloc)?;
    all.extend_from_slice(more)?;
    Ok(all)
}

// Adds the orders that are longer by one delivery than this one.
fn put_longer(
    alloc: Global,
    seed: u64,
    orders: &mut Vec<Vec<usize>>,
    order: &[usize],
) -> Result<(), NoMemory> {
    let world = along(alloc, seed, order)?;
    for next in &next_places(alloc, &world.parts().messages.items)? {
        orders.push(longer(alloc, order, &[*next])?)?;
    }
    Ok(())
}

// Every order of a system, and every beginning of one. No two states are taken as one.
fn all_orders(alloc: Global, seed: u64) -> Result<Vec<Vec<usize>>, NoMemory> {
    let mut orders = Vec::new(alloc);
    orders.push(Vec::new(alloc))?;
    for next in 0..MOST {
        if next >= orders.len() {
            break;
        }
        let order = orders[next].to_vec(alloc)?;
        put_longer(alloc, seed, &mut orders, &order)?;
    }
    Ok(orders)
}

fn number_of(alloc: Global, world: &World) -> Result<u64, NoMemory> {
    digest_by_ways(alloc, world).ok_or(AllocError)
}

// What every order reaches: after how many deliveries, and a number of the state. Each once.
fn reached(alloc: Global, seed: u64) -> Result<Vec<(usize, u64)>, NoMemory> {
    let mut all = Vec::new(alloc);
    for order in &all_orders(alloc, seed)? {
        let number = number_of(alloc, &along(alloc, seed, order)?)?;
        all.push((order.len(), number))?;
    }
    all.sort()?;
    all.dedup();
    Ok(all)
}

// The same of the cases that a search meets, by the order given with each.
fn met(alloc: Global, seed: u64) -> Result<Vec<(usize, u64)>, NoMemory> {
    let mut keeper = WorldKeeper::new(alloc);
    let kept = keeper.keep(alloc, system(alloc, seed)?, &Kept::empty(alloc), false)?;
    let mut starts = Vec::new(alloc);
    starts.push(NamedWorld { names: 0, kept })?;
    let worlds = Worlds { charge: CHARGE };
    let met = explore(alloc, &worlds, &mut keeper, starts, MOST)?;
    let mut all = Vec::new(alloc);
    for case in &met.cases {
        let number = number_of(alloc, &along(alloc, seed, &case.order)?)?;
        all.push((case.order.len(), number))?;
    }
    all.sort()?;
    Ok(all)
}

// Whether two orders are told to lead to one state, and have one key, exactly where the states have one number.
fn is_told(alloc: Global, seed: u64, one: &[usize], two: &[usize]) -> Result<bool, NoMemory> {
    growth_keeps();
    let mut keeper = Keeper::new(alloc);
    let first = along(alloc, seed, one)?;
    let second = along(alloc, seed, two)?;
    let are_one = number_of(alloc, &first)? == number_of(alloc, &second)?;
    let kept = keeper.keep(alloc, &first, &Kept::empty(alloc), false)?;
    let other = keeper.keep(alloc, &second, &kept, false)?;
    let have_one_key = keeper.key(&kept) == keeper.key(&other);
    Ok(keeper.same_state(&kept, &other) == are_one && have_one_key == are_one)
}

// Whether it is told of both orders of two neighbours among the messages that may come next. What a delivery sends comes last.
fn are_told(alloc: Global, seed: u64, order: &[usize]) -> Result<bool, NoMemory> {
    let world = along(alloc, seed, order)?;
    let places = next_places(alloc, &world.parts().messages.items)?;
    for i in 1..places.len() {
        let (first, second) = (places[i - 1], places[i]);
        let one = longer(alloc, order, &[first, second.saturating_sub(1)])?;
        let two = longer(alloc, order, &[second, first])?;
        if !is_told(alloc, seed, &one, &two)? {
            return Ok(false);
        }
    }
    Ok(true)
}

// Seeds that a linear congruence gives.
fn next_seed(seed: u64) -> u64 {
    seed.wrapping_mul(6_364_136_223_846_793_005)
        .wrapping_add(1_442_695_040_888_963_407)
}

// A search meets what every order leads to, each state once, and nothing else.
#[test]
fn search_is_every_order(rt: HostRuntime) -> Result<(), NoMemory> {
    let mut seed = 1;
    for _ in 0..12 {
        seed = next_seed(seed);
        let system = seed >> 33;
        assert_eq!(rt; met(rt.alloc(), system)?, reached(rt.alloc(), system)?);
    }
    Ok(())
}

// Of small worlds, after each order: both orders of two deliveries are told to be the same exactly where they are.
#[test]
fn pairs_of_deliveries(rt: HostRuntime) -> Result<(), NoMemory> {
    let mut seed = 1;
    for _ in 0..4 {
        seed = next_seed(seed);
        for order in &all_orders(rt.alloc(), seed >> 33)? {
            assert!(rt; are_told(rt.alloc(), seed >> 33, order)?);
        }
    }
    Ok(())
}
