ghost use Rattle.std.specs.Prelude.{◌<◌, ◌≤◌};

use crate::chunks::handle_slots;
use crate::gates::Holding;
use crate::worlds::{busy, slots};
use ic_outside::Gate;
use ic_queue_rounds::round;
use ic_state::Charge;
use std::alloc::Global;
use std::test::*;
use std::thread::Threads;

// How many messages a round of that many workers handles.
fn handled<R: Threads + Sync, G: Gate + Sync>(
    alloc: Global,
    rt: &R,
    canisters: u64,
    workers: u32,
    gate: &G,
) -> Option<u64>
    requires { (0 < workers) × (workers ≤ 64) }
{
    let world = busy(alloc, canisters)?;
    match round(alloc, rt, world, workers, 5_000_000, 0, gate) {
        Ok((_, handled)) => Some(handled),
        Err(_) => None,
    }
}

// What no clause says: two threads ran. Each of the two workers is held until the other has come.
#[test]
fn two_workers_run(rt: HostRuntime) {
    let gate = Holding::new(2, 2);
    assert_eq!(rt; handled(rt.alloc(), &rt, 2, 2, &gate), Some(2));
    assert_eq!(rt; gate.seen(), (2, 0));
}

// One worker is told from two: its first call gives up, since nobody else comes.
#[test]
fn one_worker_gives_up(rt: HostRuntime) {
    let gate = Holding::new(2, 2);
    assert_eq!(rt; handled(rt.alloc(), &rt, 2, 1, &gate), Some(2));
    assert_eq!(rt; gate.seen(), (2, 1));
}

// Four workers run, each held until all have come. Each passes with a number of its own, once, on its way to a slot
// of its own.
#[test]
fn four_workers_run(rt: HostRuntime) {
    let gate = Holding::new(4, 4);
    assert_eq!(rt; handled(rt.alloc(), &rt, 4, 4, &gate), Some(4));
    assert_eq!(rt; gate.seen(), (4, 0));
    let mut slots = 0;
    for worker in 0..4 {
        let told = gate.told(worker);
        assert_eq!(rt; told.count_ones(), 1);
        slots |= told;
    }
    assert_eq!(rt; slots, 0x1111);
}

// One worker passes with the number 0, once before each message, with its place.
#[test]
fn one_worker_passes_each(rt: HostRuntime) {
    let gate = Holding::new(0, 0);
    assert_eq!(rt; handled(rt.alloc(), &rt, 3, 1, &gate), Some(3));
    assert_eq!(rt; gate.seen(), (3, 0));
    assert_eq!(rt; gate.told(0), 0x111);
}

// Nor that work is shared by tickets: while one worker is held with its first slot, the other gets the
// three others.
#[test]
fn a_held_worker_keeps_one_slot(rt: HostRuntime) {
    let gate = Holding::new(1, 4);
    assert_eq!(rt; handled(rt.alloc(), &rt, 4, 2, &gate), Some(4));
    assert_eq!(rt; gate.seen(), (4, 0));
}

// How many messages two workers handle that are dealt fixed chunks.
fn handled_in_chunks<R: Threads + Sync, G: Gate + Sync>(
    alloc: Global,
    rt: &R,
    canisters: u32,
    gate: &G,
) -> Option<usize>
    requires { canisters ≤ 64 }
{
    let slots = slots(alloc, canisters)?;
    let charge = Charge {
        limit: 5_000_000,
        price: 0,
    };
    match handle_slots(alloc, rt, slots, 2, charge.at(0), gate) {
        Ok(turns) => Some(turns.len()),
        Err(_) => None,
    }
}

// Fixed chunks meet every clause, and run on two threads.
#[test]
fn chunks_are_worked_on_by_two(rt: HostRuntime) {
    let gate = Holding::new(2, 2);
    assert_eq!(rt; handled_in_chunks(rt.alloc(), &rt, 2, &gate), Some(2));
    assert_eq!(rt; gate.seen(), (2, 0));
}

// But a worker that is held keeps its whole chunk from the other: it gives up.
#[test]
fn a_held_worker_keeps_its_chunk(rt: HostRuntime) {
    let gate = Holding::new(1, 4);
    assert_eq!(rt; handled_in_chunks(rt.alloc(), &rt, 4, &gate), Some(4));
    assert_eq!(rt; gate.seen(), (4, 1));
}
