ghost use Rattle.std.specs.Prelude.{◌≡◌, ◌+◌, ◌<◌, ◌^◌, false, if◌then◌else◌, [], length, Some, slice_get, slice_set, IfOk};
ghost use Rattle.ic_behaviour.specs.declared.call.Origin.TheVariants.{Canister as FromCanister};
ghost use Rattle.ic_behaviour.specs.declared.call.Message.TheVariants.{Call};
ghost use Rattle.std.specs.List.{position};
ghost use Rattle.ic_behaviour.specs.Executing.{is_own, served, given_answer, numbered, answer_alone, returned};
ghost use Rattle.ic_state.specs.Seen.{seen};
ghost use Rattle.ic_state.specs.IsCanister.{IsCanister};
ghost use Rattle.ic_exec.specs.Executed.{HasRoomFor, work_of};

use crate::work::Work;
use ic_base::NoMemory;
use ic_principal::Principal;
use ic_state::{
    Answered, AnsweredList, CallId, Canister, Context, Contexts, Effects, Message, Messages,
    Origin, OutCall, OutCalls, Response,
};
use std::alloc::Global;

// A call that goes out, with its number.
fn number_call(id: Principal, own: &CallId, number: u64, call: OutCall) -> Message
    ensures { result ≡ Call (FromCanister id number own.now call.callback) id call.callee call.method call.arg call.cycles }
{
    let OutCall {
        callee,
        method,
        arg,
        cycles,
        callback,
    } = call;
    Message::Call {
        origin: Origin::Canister {
            caller: id,
            number,
            context: *own,
            callback,
        },
        sender: id,
        callee,
        method,
        arg,
        cycles,
    }
}

// The calls that go out, with numbers from this one on.
fn number_all(
    alloc: Global,
    id: Principal,
    own: &CallId,
    next: u64,
    calls: OutCalls,
) -> Result<Messages, NoMemory>
    requires { next + length calls < 2 ^ 64 }
    ensures { IfOk result (λ messages. messages ≡ numbered id own.now next calls) }
{
    let mut messages = Messages {
        items: Vec::new(alloc),
    };
    let mut number = next;
    for call in calls.items {
        messages.push(number_call(id, own, number, call))?;
        number += 1;
    }
    Ok(messages)
}

// As `number_all`. Most messages send nothing, which is seen where this is called. The id is lent on as a copy, so
// that it need not be in memory otherwise.
#[inline(always)]
fn numbered(
    alloc: Global,
    id: Principal,
    own: &CallId,
    next: u64,
    calls: OutCalls,
) -> Result<Messages, NoMemory>
    requires { next + length calls < 2 ^ 64 }
    ensures { IfOk result (λ messages. messages ≡ numbered id own.now next calls) }
{
    if calls.items.is_empty() {
        calls.items.destroy_empty();
        return Ok(Messages {
            items: Vec::new(alloc),
        });
    }
    let copy = *own;
    number_all(alloc, id, &copy, next, calls)
}

fn count_calls(calls: &OutCalls) -> usize
    ensures { result ≡ length calls.now }
{
    calls.items.len()
}

// The answer that was given, if there is one.
#[inline(always)]
fn given_answer(
    alloc: Global,
    to: &Origin,
    answer: Option<(Response, u128)>,
) -> Result<AnsweredList, NoMemory>
    ensures { IfOk result (λ answers. answers ≡ given_answer to.now answer) }
{
    let Some((response, refund)) = answer else {
        return Ok(AnsweredList {
            items: Vec::new(alloc),
        });
    };
    let mut items = Vec::with_capacity(alloc, 1)?;
    items.push_reserved(Answered {
        origin: *to,
        response,
        refund,
    });
    Ok(AnsweredList { items })
}

// The context was served.
fn serve(context: &mut Context, answered: bool, available: u128, calls: u32)
    requires { context.old.outstanding + calls < 2 ^ 32 }
    ensures { context.new ≡ record context.old {
      must_respond = (if answered then false else context.old.must_respond);
      available = (if answered then 0 else available);
      outstanding = context.old.outstanding + calls;
    } }
{
    context.must_respond = context.must_respond && !answered;
    context.available = if answered { 0 } else { available };
    context.outstanding += calls;
}

// This context, which is at that place, was served.
fn serve_at(
    contexts: &mut Contexts,
    place: usize,
    context: &Context,
    answered: bool,
    available: u128,
    calls: u32,
)
    requires there { slice_get contexts.old place ≡ Some context.now }
    requires few { context.now.outstanding + calls < 2 ^ 32 }
    ensures { contexts.new ≡ slice_set contexts.old place (record context.now {
      must_respond = (if answered then false else context.now.must_respond);
      available = (if answered then 0 else available);
      outstanding = context.now.outstanding + calls;
    }) }
{
    serve(&mut contexts.items[place], answered, available, calls);
}

/// Of a query method that was reached by a call, its answer alone.
pub fn answer_alone(
    alloc: Global,
    canister: &Canister,
    context: Context,
    effects: Effects,
) -> Result<Effects, NoMemory>
    ensures { IfOk result (λ e. e ≡ answer_alone (seen canister.now) context effects) }
{
    let Effects {
        answer,
        accepted_message,
        ..
    } = effects;
    let certified = canister.certified.copy()?;
    Ok(Effects {
        balance: canister.balance,
        available: context.available,
        answer,
        calls: OutCalls {
            items: Vec::new(alloc),
        },
        certified,
        accepted_message,
    })
}

/// Code returned in the context at that place: its effects are applied.
#[inline(always)]
pub fn returned(
    alloc: Global,
    canister: &mut Canister,
    place: usize,
    context: &Context,
    effects: Effects,
    used: u64,
) -> Result<Work, NoMemory>
    requires keeps { IsCanister canister.old }
    requires place { position (is_own context.now.id) canister.old.contexts ≡ Some place }
    requires there { slice_get canister.old.contexts place ≡ Some context.now }
    requires room { HasRoomFor (seen canister.old) context.now effects }
    ensures work { IfOk result (λ w. work_of context.now.id canister.new w ≡ returned (seen canister.old) context.now.id context.now canister.old.store.lists effects used) }
    ensures keeps { IsCanister canister.new }
    ensures used { IfOk result (λ w. w.used ≡ used) }
{
    let Effects {
        balance,
        available,
        answer,
        calls,
        certified,
        ..
    } = effects;
    let count = count_calls(&calls);
    let answered = answer.is_some();
    let answers = given_answer(alloc, &context.origin, answer)?;
    let calls = numbered(alloc, canister.id, &context.id, canister.next_call, calls)?;
    serve_at(
        &mut canister.contexts,
        place,
        context,
        answered,
        available,
        count as u32,
    );
    canister.certified = certified;
    canister.balance = balance;
    canister.next_call += count as u64;
    canister.outstanding += count as u32;
    Ok(Work {
        calls,
        answers,
        used,
        trapped: None,
    })
}
