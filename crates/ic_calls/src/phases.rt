ghost use Rattle.std.specs.Prelude.{◌≡◌, ◌+◌, ◌-◌, ◌≤◌, ◌^◌, [], ◌∷◌, ◌++◌, map, IfOk, OnOk, OnErr};
ghost use Rattle.ic_behaviour.specs.State.{waiting};
ghost use Rattle.ic_state.specs.Seen.{seen};
ghost use Rattle.ic_state.specs.IsCanister.{IsCanister, cycles_of};
ghost use Rattle.ic_calls.specs.Changes.{with_waiter, awaiting, running, told};

use crate::farewells::restarted;
use ic_base::NoMemory;
use ic_state::{Answered, AnsweredList, Canister, Phase, Waiter, Waiters};
use std::alloc::Global;

// The first call that waits.
fn first(alloc: Global, waiter: Waiter) -> Result<Waiters, NoMemory>
    ensures { IfOk result (λ waiters. waiters ≡ waiter ∷ []) }
{
    Ok(Waiters {
        items: Vec::from_slice(alloc, &[waiter])?,
    })
}

// A call waits after the others.
fn append(waiters: &mut Waiters, last: Waiters) -> Result<(), NoMemory>
    ensures waits { OnOk result (waiters.new ≡ waiters.old ++ last) }
    ensures same { OnErr result (waiters.new ≡ waiters.old) }
{
    let Waiters { items: mut last } = last;
    waiters.items.append(&mut last)?;
    Ok(())
}

fn wait(alloc: Global, phase: &mut Phase, waiter: Waiter) -> Result<(), NoMemory>
    ensures waits { OnOk result (phase.new ≡ with_waiter waiter phase.old) }
    ensures same { OnErr result (phase.new ≡ phase.old) }
{
    let last = first(alloc, waiter)?;
    if let Phase::Stopping(waiters) = phase {
        return append(waiters, last);
    }
    *phase = Phase::Stopping(last);
    Ok(())
}

/// A call waits for the canister to stop, after those that wait already. The canister is stopping from
/// now on; where it has no context, `close` stops it.
pub fn await_stop(alloc: Global, canister: &mut Canister, waiter: Waiter) -> Result<(), NoMemory>
    requires keeps { IsCanister canister.old }
    requires room { cycles_of canister.old + waiter.cycles ≤ 2 ^ 127 - 1 }
    ensures waits { OnOk result (seen canister.new ≡ awaiting waiter (seen canister.old)) }
    ensures same { OnErr result (canister.new ≡ canister.old) }
    ensures keeps { IsCanister canister.new }
{
    wait(alloc, &mut canister.phase, waiter)
}

// What a call is told that waited.
fn tell(alloc: Global, waiter: &Waiter, answers: &mut AnsweredList) -> Result<(), NoMemory>
    ensures { OnOk result (answers.new ≡ answers.old ++ told waiter.now ∷ []) }
{
    let response = restarted(alloc)?;
    answers.items.push(Answered {
        origin: waiter.origin,
        response,
        refund: waiter.cycles,
    })?;
    Ok(())
}

fn tell_all(alloc: Global, waiters: &[Waiter], answers: &mut AnsweredList) -> Result<(), NoMemory>
    ensures { OnOk result (answers.new ≡ answers.old ++ map told waiters.now) }
{
    for waiter in waiters {
        tell(alloc, waiter, answers)?;
    }
    Ok(())
}

// Tells those who wait that the canister runs again.
fn tell_waiting(alloc: Global, phase: &Phase) -> Result<AnsweredList, NoMemory>
    ensures { IfOk result (λ answers. answers ≡ map told (waiting phase.now)) }
{
    let mut answers = AnsweredList {
        items: Vec::new(alloc),
    };
    if let Phase::Stopping(waiters) = phase {
        tell_all(alloc, waiters.items.as_slice(), &mut answers)?;
    }
    Ok(answers)
}

/// The canister runs (IC Interface Specification, "IC method start_canister"). Gives the answers to those
/// who waited for it to stop, in their order. All answers are made before the canister changes.
pub fn restart(alloc: Global, canister: &mut Canister) -> Result<AnsweredList, NoMemory>
    requires keeps { IsCanister canister.old }
    ensures answers { IfOk result (λ answers. answers ≡ map told (waiting canister.old.phase)) }
    ensures runs { OnOk result (seen canister.new ≡ running (seen canister.old)) }
    ensures same { OnErr result (canister.new ≡ canister.old) }
    ensures keeps { IsCanister canister.new }
{
    let answers = tell_waiting(alloc, &canister.phase)?;
    canister.phase = Phase::Running;
    Ok(answers)
}
