ghost use Rattle.std.specs.Prelude.{◌≡◌, ◌+◌, ◌-◌, ◌*◌, ◌<◌, ◌≤◌, ◌^◌, not, ◌&&◌, true, is_some, min, find, Some, None, IfOk};
ghost use Rattle.std.specs.Option.{IsSomeAnd};
ghost use Rattle.ic_behaviour.specs.State.{Code as SomeCode, id_of};
ghost use Rattle.ic_behaviour.specs.Entry.{enters_by};
ghost use Rattle.ic_behaviour.specs.Executing.{is_own};
ghost use Rattle.ic_behaviour.specs.Closing.{finished};
ghost use Rattle.ic_behaviour.specs.Local.{admitted, refused, context_of, with_answer, begin_call, local_call, begin_answer, local};
ghost use Rattle.ic_state.specs.declared.canister.Canister.{Canister as StoredCanister};
ghost use Rattle.ic_state.specs.Seen.{seen};
ghost use Rattle.ic_state.specs.IsCanister.{IsCanister, cycles_of};
ghost use Rattle.ic_calls.specs.Received.{IsExpected, CanEnter};
ghost use Rattle.ic_run_laws.specs.TrapKeeps.{TrapKeeps};
ghost use Rattle.ic_api.specs.System.{system_api};
ghost use Rattle.ic_exec.specs.Executed.{handled_of, done_of, work_of, message_cycles, executed_cycles};

use crate::answers::{AwaitedAnswer, run_callback};
use crate::calls::{PublicMethod, run_call};
use crate::executed::Executed;
use crate::work::{Done, Work, silent};
use ic_api::entries_are_lawful;
use ic_base::NoMemory;
use ic_calls::{
    add_context, admit, call_id, close_after, context_at, out_of_cycles, refused as refusal_of,
    take_refund,
};
use ic_principal::Principal;
use ic_state::{
    Admitted, Answered, AnsweredList, BoundedEnv, CallId, Canister, Context, Env, IncomingCall,
    MOST_INSTRUCTIONS, Message, Messages, Origin, Response,
};
use std::alloc::Global;

// A call that is refused: all its cycles go back.
fn refuse(alloc: Global, origin: Origin, cycles: u128, response: Response) -> Result<Done, NoMemory>
    ensures { IfOk result (λ d. (c : StoredCanister) → done_of c d ≡ refused (seen c) origin cycles response) }
{
    let mut answers = Vec::new(alloc);
    answers.push(Answered {
        origin,
        response,
        refund: cycles,
    })?;
    Ok(Done {
        calls: Messages {
            items: Vec::new(alloc),
        },
        answers: AnsweredList { items: answers },
        used: 0,
        burned: 0,
        trapped: None,
    })
}

// What was used is paid, and contexts without calls close. The context of the message, `own`, is told its trap.
#[inline(always)]
fn finish(
    alloc: Global,
    canister: &mut Canister,
    own: &CallId,
    work: Work,
    price: u64,
) -> Result<Done, NoMemory>
    requires keeps { IsCanister canister.old }
    ensures done { IfOk result (λ d. done_of canister.new d ≡ finished price (work_of own.now canister.old work)) }
    ensures keeps { IsCanister canister.new }
{
    let Work {
        calls,
        mut answers,
        used,
        trapped,
    } = work;
    let burned = canister.balance.min(price as u128 * used as u128);
    canister.balance -= burned;
    close_after(alloc, canister, Some(own), trapped.as_ref(), &mut answers)?;
    Ok(Done {
        calls,
        answers,
        used,
        burned,
        trapped,
    })
}

// The context of a call. It is made anew where code runs in it, since that costs less than to copy the
// canister's.
fn context_of(origin: &Origin, sender: &Principal, cycles: u128) -> Context
    ensures { result ≡ context_of origin.now sender.now cycles }
{
    Context {
        id: call_id(origin),
        origin: *origin,
        caller: *sender,
        must_respond: true,
        deleted: false,
        available: cycles,
        outstanding: 0,
    }
}

// A call that the canister takes.
fn begin_call(
    alloc: Global,
    canister: &mut Canister,
    call: IncomingCall,
    entry: Admitted,
    env: Env,
) -> Result<Done, NoMemory>
    requires keeps { IsCanister canister.old }
    requires fresh { find (is_own (id_of call.origin)) canister.old.contexts ≡ None }
    requires entry { CanEnter canister.old.code entry }
    requires room { cycles_of canister.old + call.cycles ≤ 2 ^ 127 - 1 }
    ensures done { IfOk result (λ d. (code : SomeCode) → (seen canister.old).code ≡ Some code
        → done_of canister.new d ≡ begin_call (enters_by system_api) env (seen canister.old) (context_of call.origin call.sender call.cycles) call.method call.arg (code, entry)) }
    ensures keeps { IsCanister canister.new }
{
    let IncomingCall {
        origin,
        sender,
        method,
        arg,
        cycles,
    } = call;
    let place = add_context(canister, &origin, &sender, cycles)?;
    let context = context_of(&origin, &sender, cycles);
    let method = PublicMethod {
        name: method,
        entry,
        arg,
    };
    let work = run_call(alloc, canister, place, &context, method, env)?;
    finish(alloc, canister, &context.id, work, env.price)
}

// A call that the canister takes, or refuses.
fn execute_call(
    alloc: Global,
    canister: &mut Canister,
    call: IncomingCall,
    env: Env,
) -> Result<Done, NoMemory>
    requires keeps { IsCanister canister.old }
    requires fresh { find (is_own (id_of call.origin)) canister.old.contexts ≡ None }
    requires room { cycles_of canister.old + call.cycles ≤ 2 ^ 127 - 1 }
    ensures done { IfOk result (λ d. done_of canister.new d
        ≡ local_call (enters_by system_api) env (seen canister.old) call.origin call.sender call.method call.arg call.cycles (admitted (seen canister.old) call.method)) }
    ensures keeps { IsCanister canister.new }
{
    match admit(canister, call.method.items.as_str()) {
        Err(refusal) => {
            let response = refusal_of(alloc, refusal)?;
            refuse(alloc, call.origin, call.cycles, response)
        }
        Ok(entry) => {
            if canister.balance < env.limit as u128 * env.price as u128 {
                let response = out_of_cycles(alloc)?;
                refuse(alloc, call.origin, call.cycles, response)
            } else {
                begin_call(alloc, canister, call, entry, env)
            }
        }
    }
}

// Whether a callback runs in the context.
fn runs_callback(canister: &Canister, context: &Context) -> bool
    ensures { result ≡ (not context.now.deleted && is_some canister.now.code) }
{
    !context.deleted && canister.code.is_some()
}

// An answer to the call of a context that is there.
fn execute_answer(
    alloc: Global,
    canister: &mut Canister,
    own: CallId,
    answer: AwaitedAnswer,
    env: BoundedEnv,
) -> Result<Done, NoMemory>
    requires keeps { IsCanister canister.old }
    requires expected { IsSomeAnd (find (is_own own) canister.old.contexts) (λ x. 0 < x.outstanding) }
    requires room { cycles_of canister.old + answer.refund ≤ 2 ^ 127 - 1 }
    ensures done { IfOk result (λ d. done_of canister.new d
        ≡ begin_answer (enters_by system_api) env (with_answer own answer.refund (seen canister.old)) own answer.callback answer.response answer.refund) }
    ensures keeps { IsCanister canister.new }
{
    let price = env.env().price;
    let place = take_refund(canister, &own, answer.refund);
    let context = context_at(&canister.contexts, place);
    if runs_callback(canister, &context) {
        let work = run_callback(alloc, canister, place, &context, answer, env)?;
        finish(alloc, canister, &context.id, work, price)
    } else {
        let work = silent(alloc, 0, None);
        finish(alloc, canister, &own, work, price)
    }
}

/// Executes a message on a canister that is lent, as `execute` does. After `NoMemory` a part of the message may
/// be done.
pub fn execute_in(
    alloc: Global,
    canister: &mut Canister,
    message: Message,
    env: BoundedEnv,
) -> Result<Done, NoMemory>
    requires keeps { IsCanister canister.old }
    requires expected { IsExpected (seen canister.old) message }
    requires room { cycles_of canister.old + message_cycles message ≤ 2 ^ 127 - 1 }
    ensures done { IfOk result (λ d. done_of canister.new d ≡ local (enters_by system_api) env (seen canister.old) message) }
    ensures keeps { IsCanister canister.new }
{
    match message {
        Message::Call {
            origin,
            sender,
            method,
            arg,
            cycles,
            ..
        } => execute_call(
            alloc,
            canister,
            IncomingCall {
                origin,
                sender,
                method,
                arg,
                cycles,
            },
            env.env(),
        ),
        Message::Answer {
            origin,
            response,
            refund,
            ..
        } => match origin {
            Origin::Canister {
                context,
                callback,
                ..
            } => {
                let answer = AwaitedAnswer {
                    callback,
                    response,
                    refund,
                };
                execute_answer(alloc, canister, context, answer, env)
            }
            Origin::Ingress(_) => unreachable!(),
        },
    }
}

/// Executes a message (IC Interface Specification, "Message execution" and "Callback invocation").
/// Calls take the numbers from `next_call` on in the order in which they were performed. The
/// argument of a call is moved and not copied. After `NoMemory` the canister is dropped. This is for those who own
/// the canister, as tests do: `ic_deliver` lends it to `execute_in`.
pub fn execute(
    alloc: Global,
    canister: Canister,
    message: Message,
    env: Env,
) -> Result<Executed, NoMemory>
    requires keeps { IsCanister canister }
    // The context of a call is not there yet; that of an answer is, and awaits one.
    requires expected { IsExpected (seen canister) message }
    requires room { cycles_of canister + message_cycles message ≤ 2 ^ 127 - 1 }
    requires limit { env.limit ≤ MOST_INSTRUCTIONS }
    ensures handled { IfOk result (λ e. handled_of e ≡ local (enters_by system_api) env (seen canister) message) }
    ensures keeps { IfOk result (λ e. IsCanister e.canister) }
    // Cycles are neither made nor lost.
    ensures conserved { IfOk result (λ e. executed_cycles e ≡ cycles_of canister + message_cycles message) }
    ensures trapped { IfOk result (λ e. is_some e.trapped ≡ true → TrapKeeps (enters_by system_api) env (seen canister) message (handled_of e)) }
    // The price of what was used, or all that the effects left, where that is less.
    ensures burned { IfOk result (λ e. e.burned ≡ min (e.canister.balance + e.burned) (env.price * e.used)) }
{
    entries_are_lawful();
    let mut canister = canister;
    match execute_in(alloc, &mut canister, message, BoundedEnv::of(env)) {
        Ok(done) => {
            let Done {
                calls,
                answers,
                used,
                burned,
                trapped,
            } = done;
            Ok(Executed {
                canister,
                calls,
                answers,
                used,
                trapped,
                burned,
            })
        }
        Err(e) => Err(e),
    }
}
