use crate::queues::asks::{Ask, creation, installation};
use ic_outside::OpenGate;
use ic_principal::Principal;
use ic_queue_rounds::{Charge, Crew, QueuedWorld, round, round_in_queues, run_rounds};
use ic_state::World;
use std::alloc::Global;
use std::thread::Threads;

const LIMIT: u64 = 5_000_000;

/// What rounds go through.
#[derive(Clone, Copy)]
pub enum Body {
    List,
    Queues,
}

fn submitted(world: World, ask: Ask) -> Option<World> {
    let few = world.parts().requests.len() < 1_048_576;
    if !few {
        return None;
    }
    let Ask {
        callee,
        method,
        arg,
    } = ask;
    world
        .submit(Principal::canister_id(900), callee, method, arg)
        .ok()
}

/// The user, who controls all canisters, calls.
pub fn asked(world: World, ask: Option<Ask>) -> Option<World> {
    match ask {
        Some(ask) => submitted(world, ask),
        None => None,
    }
}

// That many rounds over queues, however few, by two workers.
fn over_queues<R: Threads + Sync>(
    alloc: Global,
    rt: &R,
    world: World,
    count: u32,
) -> Option<World> {
    let mut world = QueuedWorld::new(alloc, world).ok()?;
    let crew = Crew {
        rt,
        workers: 2,
        gate: &OpenGate,
    };
    let charge = Charge {
        limit: LIMIT,
        price: 1,
    };
    for _ in 0..count {
        world = round_in_queues(alloc, world, &crew, charge).ok()?;
    }
    world.into_world(alloc).ok()
}

// Up to that many rounds over the list, by one worker.
fn over_list<R: Threads + Sync>(alloc: Global, rt: &R, world: World, count: u32) -> Option<World> {
    let mut world = world;
    for _ in 0..count {
        if !world.parts().messages.is_empty() {
            let (next, _) = round(alloc, rt, world, 1, LIMIT, 1, &OpenGate).ok()?;
            world = next;
        }
    }
    Some(world)
}

/// Up to that many rounds.
pub fn rounds<R: Threads + Sync>(
    alloc: Global,
    rt: &R,
    body: Body,
    world: World,
    count: u32,
) -> Option<World> {
    match body {
        Body::List => over_list(alloc, rt, world, count),
        Body::Queues if count < 8 => over_queues(alloc, rt, world, count),
        Body::Queues => match run_rounds(alloc, rt, world, count, 2, LIMIT, 1, &OpenGate) {
            Ok((world, _)) => Some(world),
            Err(_) => None,
        },
    }
}

/// Six canisters with code, made by a round.
pub fn begun<R: Threads + Sync>(alloc: Global, rt: &R, body: Body) -> Option<World> {
    let mut world = World::new(alloc);
    for number in 0..12u64 {
        let ask = match number.checked_sub(6) {
            Some(number) => installation(alloc, Principal::canister_id(number)),
            None => creation(alloc),
        };
        world = asked(world, ask)?;
    }
    rounds(alloc, rt, body, world, 1)
}
