use crate::digest::digest_with;
use crate::queues::asks::{creation, fanning, managing, some_canister, to_canister, to_management};
use crate::queues::dice::Dice;
use crate::queues::worlds::{Body, asked, begun, rounds};
use ic_principal::Principal;
use ic_state::World;
use std::alloc::Global;
use std::test::*;
use std::thread::Threads;

/// What the calls of a seed leave, when no message is under way any more.
#[derive(Clone, Copy, Debug, PartialEq)]
struct Left {
    /// Of what was there whenever rounds had been made.
    digest: Option<u64>,
    messages: usize,
    /// Those that were under way where the last rounds began.
    before: usize,
    made: u64,
    there: u64,
}

// A canister is stopped, and then deleted.
fn deleted(alloc: Global, world: World, dice: &mut Dice) -> Option<World> {
    let id = some_canister(dice);
    let world = asked(world, managing(alloc, "stop_canister", id))?;
    asked(world, managing(alloc, "delete_canister", id))
}

// A call or two.
fn called(alloc: Global, world: World, dice: &mut Dice) -> Option<World> {
    match dice.roll(11) {
        0..=5 => asked(world, to_canister(alloc, dice)),
        6..=8 => asked(world, to_management(alloc, dice)),
        _ => deleted(alloc, world, dice),
    }
}

fn all_called(alloc: Global, world: World, dice: &mut Dice) -> Option<World> {
    let mut world = world;
    for _ in 0..5 {
        world = called(alloc, world, dice)?;
    }
    Some(world)
}

fn waiting(world: &World) -> usize {
    world.parts().messages.items.len()
}

fn outcome(digest: Option<u64>, before: usize, world: &World) -> Left {
    let parts = world.parts();
    Left {
        digest,
        messages: waiting(world),
        before,
        made: parts.next_canister,
        there: parts.canisters.len() as u64,
    }
}

// Each canister that is there and has code makes many calls in a round.
fn fanned<R: Threads + Sync>(alloc: Global, rt: &R, body: Body, world: World) -> Option<World> {
    let mut world = world;
    for number in 0..9 {
        world = asked(world, fanning(alloc, Principal::canister_id(number)))?;
    }
    rounds(alloc, rt, body, world, 1)
}

// A canister is made, stopped and deleted, with that many calls to it before its deletion and one after that. It handles the first
// one; the last one goes back in the same round, unless another one stays before it.
fn parted<R: Threads + Sync>(
    alloc: Global,
    rt: &R,
    body: Body,
    world: World,
    before: u32,
) -> Option<World> {
    let id = Principal::canister_id(world.parts().next_canister);
    let world = asked(world, creation(alloc))?;
    let world = rounds(alloc, rt, body, world, 1)?;
    let world = asked(world, managing(alloc, "stop_canister", id))?;
    let mut world = rounds(alloc, rt, body, world, 1)?;
    for _ in 0..before {
        world = asked(world, fanning(alloc, id))?;
    }
    let world = asked(world, managing(alloc, "delete_canister", id))?;
    let world = asked(world, fanning(alloc, id))?;
    rounds(alloc, rt, body, world, 1)
}

// Calls and some rounds in turn, and then all rounds.
fn script<R: Threads + Sync>(alloc: Global, rt: &R, body: Body, seed: u64) -> Option<Left> {
    let mut dice = Dice::new(seed);
    let mut world = begun(alloc, rt, body)?;
    let mut digest = Some(0);
    for _ in 0..10 {
        world = all_called(alloc, world, &mut dice)?;
        let count = match dice.roll(4) {
            0 | 1 => 1,
            2 => 3,
            _ => 20,
        };
        world = rounds(alloc, rt, body, world, count)?;
        digest = digest_with(alloc, digest, &world);
    }
    for before in 1..3 {
        world = parted(alloc, rt, body, world, before)?;
        digest = digest_with(alloc, digest, &world);
    }
    let world = fanned(alloc, rt, body, world)?;
    let digest = digest_with(alloc, digest, &world);
    let before = waiting(&world);
    match rounds(alloc, rt, body, world, 1000) {
        Some(world) => Some(outcome(digest_with(alloc, digest, &world), before, &world)),
        None => None,
    }
}

#[test]
fn same_after_rounds(rt: HostRuntime) {
    for seed in 0..2u64 {
        let listed = script(rt.alloc(), &rt, Body::List, seed);
        let Some(left) = listed else {
            panic!(rt; "not run");
        };
        assert!(rt; left.digest.is_some() && left.messages == 0 && left.there < left.made);
        // As long as there are no more, `run_rounds` goes through the list.
        assert!(rt; left.before > 64);
        assert_eq!(rt; listed, script(rt.alloc(), &rt, Body::Queues, seed));
    }
}
