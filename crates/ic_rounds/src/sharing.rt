ghost use Rattle.std.specs.Prelude.{◌≡◌, ◌<◌, ◌≤◌, ℕ, [], length, IfOk, OnOk, vec_len, vec_capacity};
ghost use Rattle.std.specs.List.{AllByRecursion, AllZip};
ghost use Rattle.ic_tickets.specs.Tickets.{items_of, IsOf, IsFresh, HasEnded, times_drawn};
ghost use Rattle.ic_rounds.specs.Slots.{IsReady};
ghost use Rattle.ic_rounds.specs.HandledSlots.{IsHandled};
ghost use Rattle.ic_rounds.specs.Workers.{IsIdle, IsDone, IsFilled, AreNumbered};

use crate::crew::Crew;
use crate::halves::all_work;
use crate::handled_slot::HandledSlot;
use crate::places::{empty_places, put_outbox, take_handled};
use crate::slot::Slot;
use crate::worker::{Shop, Worker};
use ic_base::NoMemory;
use ic_outside::Gate;
use ic_state::BoundedEnv;
use ic_tickets::{Pass, Tickets};
use std::alloc::Global;
use std::snapshot::Snapshot;
use std::thread::Threads;

// A worker for each pass, numbered from 0 on. Its outbox has room for all slots.
fn staffed(
    alloc: Global,
    tickets: &Tickets<Slot>,
    env: BoundedEnv,
    count: usize,
    passes: Vec<Pass<Slot>>,
) -> Result<Vec<Worker>, NoMemory>
    requires passes { AllByRecursion (λ p. IsOf tickets.now p × IsFresh p) passes.items }
    requires ready { AllByRecursion IsReady (items_of tickets.now) }
    requires count { length (items_of tickets.now) ≤ count }
    requires few { vec_len passes ≤ 64 }
    ensures workers { IfOk result (λ v. AllByRecursion (IsIdle tickets.now env) v.items) }
    ensures numbers { IfOk result (λ v. AreNumbered 0 v.items) }
    ensures len { IfOk result (λ v. vec_len v ≡ vec_len passes) }
{
    let _at_these = tickets;
    let _under = env;
    let mut workers = Vec::with_capacity(alloc, passes.len())?;
    for pass in passes {
        let number = workers.len() as u32;
        let outbox = Vec::with_capacity(alloc, count)?;
        workers.push_reserved(Worker {
            number,
            pass,
            outbox,
        });
    }
    Ok(workers)
}

// What workers did goes into the places of their slots, and their passes come back.
fn gathered(
    alloc: Global,
    tickets: &Tickets<Slot>,
    slots: &Snapshot<Vec<Slot>>,
    env: BoundedEnv,
    places: &mut Vec<Option<HandledSlot>>,
    workers: Vec<Worker>,
) -> Result<Vec<Pass<Slot>>, NoMemory>
    requires slots { slots.now.value.items ≡ items_of tickets.now }
    requires len { vec_len places.old ≡ vec_len slots.now.value }
    requires workers { AllByRecursion (IsDone tickets.now env) workers.items }
    ensures len { vec_len places.new ≡ vec_len places.old }
    ensures many { IfOk result (λ v. vec_len v ≡ vec_len workers) }
    ensures passes { IfOk result (λ v. AllByRecursion (λ p. IsOf tickets.now p × HasEnded p) v.items) }
    ensures filled { IfOk result (λ v. (k : ℕ) → 0 < times_drawn k v.items → IsFilled slots.now.value.items env places.new.items k) }
{
    let _of_these = tickets;
    let mut passes = Vec::with_capacity(alloc, workers.len())?;
    for worker in workers {
        let Worker { pass, outbox, .. } = worker;
        put_outbox(slots, env, places, outbox)?;
        passes.push_reserved(pass);
    }
    Ok(passes)
}

// Workers draw the slots, and what came of them is taken in their order.
fn shared_out<R: Threads + Sync, G: Gate + Sync>(
    alloc: Global,
    slots: Vec<Slot>,
    crew: &Crew<'_, R, G>,
    env: BoundedEnv,
) -> Result<Vec<HandledSlot>, NoMemory>
    requires few { vec_len slots ≤ 64 }
    requires ready { AllByRecursion IsReady slots.items }
    ensures { IfOk result (λ v. AllZip (IsHandled env) slots.items v.items) }
{
    let these = Snapshot::of(&slots);
    let count = slots.len();
    let mut places = empty_places(alloc, count)?;
    let (tickets, passes) = Tickets::new(alloc, slots, crew.workers)?;
    let mut workers = staffed(alloc, &tickets, env, count, passes)?;
    let shop = Shop {
        alloc,
        tickets: &tickets,
        env,
        gate: crew.gate,
    };
    all_work(crew.rt, &shop, workers.as_mut_slice());
    let Shop {
        alloc: _,
        tickets: _,
        env: _,
        gate: _,
    } = shop;
    let passes = gathered(alloc, &tickets, &these, env, &mut places, workers)?;
    tickets.close(passes);
    take_handled(alloc, &these, env, places)
}

/// Handles the messages of slots on the workers of a crew, and no more than there are slots. What came
/// of them is in the order of the slots. Before each message its worker passes the gate, with its own
/// number, from 0, and the slot's. It is public for its contract, which a body that deals fixed chunks meets too
/// (`ic_workers_tests`).
pub fn handle_slots<R: Threads + Sync, G: Gate + Sync>(
    alloc: Global,
    slots: Vec<Slot>,
    crew: &Crew<'_, R, G>,
    env: BoundedEnv,
) -> Result<Vec<HandledSlot>, NoMemory>
    requires few { vec_len slots ≤ 64 }
    requires ready { AllByRecursion IsReady slots.items }
    ensures { IfOk result (λ v. AllZip (IsHandled env) slots.items v.items) }
{
    let workers = crew.workers.min(slots.len() as u32);
    if workers == 0 {
        return Ok(Vec::new(alloc));
    }
    let crew = Crew {
        rt: crew.rt,
        workers,
        gate: crew.gate,
    };
    shared_out(alloc, slots, &crew, env)
}
