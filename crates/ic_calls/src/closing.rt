ghost use Rattle.std.specs.Prelude.{◌≡◌, [], ◌∷◌, ◌++◌, map, Some, IfOk, OnOk, OnErr};
ghost use Rattle.std.specs.List.{filter, flat_map};
ghost use Rattle.std.specs.Option.{option_copied};
ghost use Rattle.ic_behaviour.specs.Closing.{response_for, rejected, released, releases, is_open, phase_after, closed, closing};
ghost use Rattle.ic_state.specs.Seen.{seen};
ghost use Rattle.ic_state.specs.IsCanister.{IsCanister};
ghost use Rattle.ic_calls.specs.Closed.{trapped_in};

use crate::contexts::{has_open, is_same, remove_closed};
use crate::responses::{empty_reply, no_response, trapped_by};
use ic_base::NoMemory;
use ic_state::{
    Answered, AnsweredList, CallId, Canister, Context, Contexts, Origin, Phase, Response, Waiter,
};
use std::alloc::Global;
use wm_semantics::Trap;

// What a context that has no answer is told: the trap of the message's own context, where it
// trapped.
fn response_for(
    alloc: Global,
    own: Option<&CallId>,
    trap: Option<&Trap>,
    id: &CallId,
) -> Result<Response, NoMemory>
    ensures { IfOk result (λ r. r ≡ response_for (trapped_in (option_copied own.entry) (option_copied trap.entry)) id.now) }
{
    let Some(own) = own else {
        return no_response(alloc);
    };
    let Some(trap) = trap else {
        return no_response(alloc);
    };
    if is_same(own, id) {
        trapped_by(alloc, trap)
    } else {
        no_response(alloc)
    }
}

// Gives an answer. Room is made first, so that none has to be handed back.
#[inline(always)]
fn push(
    answers: &mut AnsweredList,
    origin: &Origin,
    response: Response,
    refund: u128,
) -> Result<(), NoMemory>
    ensures { OnOk result (answers.new ≡ answers.old ++ record { origin = origin.now; response = response; refund = refund } ∷ []) }
{
    answers.items.reserve(1)?;
    answers.items.push_reserved(Answered {
        origin: *origin,
        response,
        refund,
    });
    Ok(())
}

// Rejects a context that must respond and awaits no call.
fn reject_one(
    alloc: Global,
    context: &Context,
    own: Option<&CallId>,
    trap: Option<&Trap>,
    answers: &mut AnsweredList,
) -> Result<(), NoMemory>
    ensures { OnOk result (answers.new ≡ answers.old ++ rejected (trapped_in (option_copied own.entry) (option_copied trap.entry)) context.now) }
{
    if context.outstanding > 0 || !context.must_respond {
        return Ok(());
    }
    let response = response_for(alloc, own, trap, &context.id)?;
    push(answers, &context.origin, response, context.available)
}

// Rejects the contexts that must respond and await no call.
fn reject_starved(
    alloc: Global,
    contexts: &[Context],
    own: Option<&CallId>,
    trap: Option<&Trap>,
    answers: &mut AnsweredList,
) -> Result<(), NoMemory>
    ensures { OnOk result (answers.new ≡ answers.old ++ flat_map (rejected (trapped_in (option_copied own.entry) (option_copied trap.entry))) contexts.now) }
{
    for context in contexts {
        reject_one(alloc, context, own, trap, answers)?;
    }
    Ok(())
}

// Answers those who wait for the canister to stop.
fn release(alloc: Global, waiters: &[Waiter], answers: &mut AnsweredList) -> Result<(), NoMemory>
    ensures { OnOk result (answers.new ≡ answers.old ++ map released waiters.now) }
{
    for waiter in waiters {
        let response = empty_reply(alloc)?;
        push(answers, &waiter.origin, response, waiter.cycles)?;
    }
    Ok(())
}

// Answers those who wait for the canister to stop, where it stops.
fn release_all(
    alloc: Global,
    phase: &Phase,
    contexts: &Contexts,
    answers: &mut AnsweredList,
) -> Result<(), NoMemory>
    ensures { OnOk result (answers.new ≡ answers.old ++ releases phase.now (filter is_open contexts.now)) }
{
    let Phase::Stopping(waiters) = phase else {
        return Ok(());
    };
    if has_open(contexts) {
        return Ok(());
    }
    release(alloc, waiters.items.as_slice(), answers)
}

// What the canister answers as contexts close, after other answers.
fn closing(
    alloc: Global,
    canister: &Canister,
    own: Option<&CallId>,
    trap: Option<&Trap>,
    answers: &mut AnsweredList,
) -> Result<(), NoMemory>
    ensures { OnOk result (answers.new ≡ answers.old ++ closing (trapped_in (option_copied own.entry) (option_copied trap.entry)) (seen canister.now)) }
{
    let contexts = &canister.contexts;
    reject_starved(alloc, contexts.items.as_slice(), own, trap, answers)?;
    release_all(alloc, &canister.phase, contexts, answers)
}

/// Closes the call contexts that await no call (IC Interface Specification, "Call context
/// starvation" and "Call context removal"): each that must respond is rejected, in the order in
/// which they were made, and all are removed. A stopping canister without contexts is stopped, and
/// those who wait for it are answered. `own` and `trap` are the message's own context with its trap,
/// where it trapped. All answers are made before the canister changes. They come after others that are lent, so that none is moved.
pub fn close_after(
    alloc: Global,
    canister: &mut Canister,
    own: Option<&CallId>,
    trap: Option<&Trap>,
    answers: &mut AnsweredList,
) -> Result<(), NoMemory>
    requires keeps { IsCanister canister.old }
    ensures answers { OnOk result (answers.new ≡ answers.old ++ closing (trapped_in (option_copied own.entry) (option_copied trap.entry)) (seen canister.old)) }
    ensures closed { OnOk result (seen canister.new ≡ closed (seen canister.old)) }
    ensures same { OnErr result (canister.new ≡ canister.old) }
    ensures keeps { IsCanister canister.new }
{
    closing(alloc, canister, own, trap, answers)?;
    remove_closed(&mut canister.contexts);
    stop_if_due(&mut canister.phase, &canister.contexts);
    Ok(())
}

/// As `close_after`, where there are no other answers.
pub fn close(
    alloc: Global,
    canister: &mut Canister,
    own: Option<&CallId>,
    trap: Option<&Trap>,
) -> Result<AnsweredList, NoMemory>
    requires keeps { IsCanister canister.old }
    ensures answers { IfOk result (λ answers. answers ≡ closing (trapped_in (option_copied own.entry) (option_copied trap.entry)) (seen canister.old)) }
    ensures closed { OnOk result (seen canister.new ≡ closed (seen canister.old)) }
    ensures same { OnErr result (canister.new ≡ canister.old) }
    ensures keeps { IsCanister canister.new }
{
    let mut answers = AnsweredList {
        items: Vec::new(alloc),
    };
    close_after(alloc, canister, own, trap, &mut answers)?;
    Ok(answers)
}

// A stopping canister without contexts is stopped.
fn stop_if_due(phase: &mut Phase, contexts: &Contexts)
    ensures { phase.new ≡ phase_after phase.old contexts.now }
{
    if contexts.items.is_empty() {
        if let Phase::Stopping(_) = phase {
            *phase = Phase::Stopped;
        }
    }
}
