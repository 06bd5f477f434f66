// A first phase that deals a fixed chunk of the slots to each worker, in place of tickets that they draw. It meets
// the contract of `ic_rounds::handle_slots`, with the fields of its crew as parameters.
ghost use Rattle.std.specs.Prelude.{◌≡◌, ◌+◌, ◌++◌, ◌<◌, ◌≤◌, IfOk, vec_len};
ghost use Rattle.std.specs.List.{AllByRecursion, AllZip};
ghost use Rattle.std.specs.Thread.{IsSync};
ghost use Rattle.ic_rounds.specs.Slots.{IsReady};
ghost use Rattle.ic_rounds.specs.HandledSlots.{IsHandled};

use ic_base::NoMemory;
use ic_deliver::give;
use ic_outside::Gate;
use ic_rounds::{HandledSlot, Slot};
use ic_state::BoundedEnv;
use std::alloc::Global;
use std::thread::{Threads, join};

// Slots in their order for workers in theirs, and the numbers of the first of both.
#[derive(Drop)]
struct Share {
    slots: Vec<Slot>,
    first_slot: u32,
    workers: u32,
    first_worker: u32,
}

// The first worker's chunk, and what is left to the others. Chunks differ by one slot at most.
fn cut_off(share: Share) -> Result<(Share, Share), NoMemory>
    requires workers { 1 < share.workers }
    requires few { vec_len share.slots ≤ 64 }
    ensures slots { IfOk result (λ r. share.slots.items ≡ r.0.slots.items ++ r.1.slots.items) }
    ensures workers { IfOk result (λ r. r.1.workers + 1 ≡ share.workers) }
    ensures few { IfOk result (λ r. vec_len r.1.slots ≤ 64) }
{
    let Share {
        mut slots,
        first_slot,
        workers,
        first_worker,
    } = share;
    let length = slots.len() / workers as usize;
    let left = slots.split_off(length)?;
    let chunk = Share {
        slots,
        first_slot,
        workers: 1,
        first_worker,
    };
    let others = Share {
        slots: left,
        first_slot: first_slot.wrapping_add(length as u32),
        workers: workers - 1,
        first_worker: first_worker.wrapping_add(1),
    };
    Ok((chunk, others))
}

fn handled(alloc: Global, slot: Slot, env: BoundedEnv) -> Result<HandledSlot, NoMemory>
    requires ready { IsReady slot }
    ensures { IfOk result (IsHandled env slot) }
{
    let Slot {
        key,
        canister,
        message,
    } = slot;
    let mut canister = canister;
    let done = give(alloc, &mut canister, message.take(), env)?;
    Ok(HandledSlot {
        key,
        canister,
        done,
    })
}

// The first worker handles the messages of all slots.
fn handled_by_one<G: Gate>(
    alloc: Global,
    share: Share,
    env: BoundedEnv,
    gate: &G,
) -> Result<Vec<HandledSlot>, NoMemory>
    requires ready { AllByRecursion IsReady share.slots.items }
    ensures { IfOk result (λ v. AllZip (IsHandled env) share.slots.items v.items) }
{
    let Share {
        slots,
        first_slot,
        first_worker,
        ..
    } = share;
    let mut turns = Vec::with_capacity(alloc, slots.len())?;
    let mut number = first_slot;
    for slot in slots {
        gate.pass(first_worker, number);
        let turn = handled(alloc, slot, env)?;
        turns.push_reserved(turn);
        number = number.wrapping_add(1);
    }
    Ok(turns)
}

#[cycle(sides)]
fn handled_by_all<R: Threads + Sync, G: Gate + Sync>(
    alloc: Global,
    rt: &R,
    share: Share,
    env: BoundedEnv,
    gate: &G,
) -> Result<Vec<HandledSlot>, NoMemory>
    requires workers { 0 < share.workers }
    requires few { vec_len share.slots ≤ 64 }
    requires ready { AllByRecursion IsReady share.slots.items }
    ensures { IfOk result (λ v. AllZip (IsHandled env) share.slots.items v.items) }
{
    if share.workers == 1 {
        return handled_by_one(alloc, share, env, gate);
    }
    let (chunk, others) = cut_off(share)?;
    handle_in_slots(alloc, rt, chunk, others, env, gate)
}

// A function of its own, so that what the closures require is what it is given.
#[cycle(sides)]
fn handle_in_slots<R: Threads + Sync, G: Gate + Sync>(
    alloc: Global,
    rt: &R,
    chunk: Share,
    others: Share,
    env: BoundedEnv,
    gate: &G,
) -> Result<Vec<HandledSlot>, NoMemory>
    requires workers { 0 < others.workers }
    requires few { vec_len others.slots ≤ 64 }
    requires ready { AllByRecursion IsReady chunk.slots.items × AllByRecursion IsReady others.slots.items }
    ensures { IfOk result (λ v. AllZip (IsHandled env) (chunk.slots.items ++ others.slots.items) v.items) }
{
    let (first, more) = join(
        rt,
        || -> Result<Vec<HandledSlot>, NoMemory>
            requires { IsSync G.row × AllByRecursion IsReady chunk.slots.items }
            ensures { IfOk result (λ v. AllZip (IsHandled env) chunk.slots.items v.items) }
        { handled_by_one(alloc, chunk, env, gate) },
        || -> Result<Vec<HandledSlot>, NoMemory>
            requires { IsSync R.row × IsSync G.row × (0 < others.workers) × (vec_len others.slots ≤ 64) × AllByRecursion IsReady others.slots.items }
            ensures { IfOk result (λ v. AllZip (IsHandled env) others.slots.items v.items) }
        { handled_by_all(alloc, rt, others, env, gate) },
    );
    let mut all = first?;
    let mut more = more?;
    all.append(&mut more)?;
    Ok(all)
}

/// Handles the messages of slots on up to `workers` workers, and no more than there are slots. What came
/// of them is in the order of the slots. Before each message its worker passes the gate, with its own
/// number, from 0, and the slot's.
pub fn handle_slots<R: Threads + Sync, G: Gate + Sync>(
    alloc: Global,
    rt: &R,
    slots: Vec<Slot>,
    workers: u32,
    env: BoundedEnv,
    gate: &G,
) -> Result<Vec<HandledSlot>, NoMemory>
    requires workers { (0 < workers) × (workers ≤ 64) }
    requires few { vec_len slots ≤ 64 }
    requires ready { AllByRecursion IsReady slots.items }
    ensures { IfOk result (λ v. AllZip (IsHandled env) slots.items v.items) }
{
    let crew = workers.min(slots.len() as u32);
    if crew == 0 {
        return Ok(Vec::new(alloc));
    }
    let share = Share {
        slots,
        first_slot: 0,
        workers: crew,
        first_worker: 0,
    };
    handled_by_all(alloc, rt, share, env, gate)
}
