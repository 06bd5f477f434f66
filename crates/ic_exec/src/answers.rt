ghost use Rattle.std.specs.Prelude.{◌≡◌, ◌+◌, ◌*◌, ◌<◌, ◌≤◌, ◌^◌, Some, slice_get, IfOk};
ghost use Rattle.std.specs.Option.{IsSome};
ghost use Rattle.ic_behaviour.specs.State.{Code as SomeCode};
ghost use Rattle.std.specs.List.{position};
ghost use Rattle.ic_behaviour.specs.Entry.{enters_by};
ghost use Rattle.ic_behaviour.specs.Executing.{is_own, view, answer_view, target_of, kind_of, answered_with};
ghost use Rattle.ic_state.specs.Seen.{seen};
ghost use Rattle.ic_state.specs.IsCanister.{IsCanister};
ghost use Rattle.ic_api.specs.System.{system_api};
ghost use Rattle.ic_exec.specs.Executed.{work_of};
ghost use Rattle.ic_exec.specs.Cleanups.{after_cleanup};

use crate::effects::returned;
use crate::work::{Work, silent};
use ic_base::NoMemory;
use ic_entry::{Entered, Entry, attempt, copy_for_view, view_in, with_answer};
use ic_state::{BoundedEnv, Callback, Canister, Context, EntryKind, Env, Response};
use std::alloc::Global;
use wm_semantics::Target;

/// An answer that a context awaits: the callback of its call, the response, and the cycles that come back.
#[derive(Drop)]
pub struct AwaitedAnswer {
    pub callback: Callback,
    pub response: Response,
    pub refund: u128,
}

fn target_of(callback: &Callback, response: &Response) -> Target
    ensures { result ≡ target_of callback.now response.now }
{
    match response {
        Response::Reply(_) => Target::Element {
            index: callback.reply_fun,
            env: callback.reply_env,
        },
        Response::Reject { .. } => Target::Element {
            index: callback.reject_fun,
            env: callback.reject_env,
        },
    }
}

fn kind_of(response: &Response) -> EntryKind
    ensures { result ≡ kind_of response.now }
{
    match response {
        Response::Reply(_) => EntryKind::Reply,
        Response::Reject { .. } => EntryKind::Reject,
    }
}

// The callback trapped: its cleanup runs, if there is one. Gives what it used.
fn clean_up(
    alloc: Global,
    canister: &mut Canister,
    context: &Context,
    cleanup: Option<(u32, u32)>,
    env: Env,
) -> Result<u64, NoMemory>
    requires keeps { IsCanister canister.old }
    requires code { IsSome canister.old.code }
    requires cycles { canister.old.balance + context.now.available < 2 ^ 127 }
    ensures store { IfOk result (λ used. (code : SomeCode) → (seen canister.old).code ≡ Some code
        → (canister.new.store.lists, used) ≡ after_cleanup (enters_by system_api) env (seen canister.old) context.now code cleanup) }
    ensures rest { IfOk result (λ _. canister.new ≡ record canister.old { store = canister.new.store }) }
    ensures keeps { IsCanister canister.new }
    ensures used { IfOk result (λ used. used ≤ env.limit) }
{
    let Some((index, argument)) = cleanup else {
        return Ok(0);
    };
    let copies = copy_for_view(alloc, canister)?;
    let view = view_in(alloc, env, canister, copies, context);
    let Some(code) = &canister.code else {
        unreachable!();
    };
    let entered = attempt(
        alloc,
        code.get(),
        &mut canister.store,
        Entry {
            target: Target::Element {
                index,
                env: argument,
            },
            kind: EntryKind::Cleanup,
            view,
        },
        env.limit,
        true,
    )?;
    Ok(entered.used)
}

/// Runs the callback for an answer, in the context at that place, and its cleanup where it traps.
pub fn run_callback(
    alloc: Global,
    canister: &mut Canister,
    place: usize,
    context: &Context,
    answer: AwaitedAnswer,
    env: BoundedEnv,
) -> Result<Work, NoMemory>
    requires keeps { IsCanister canister.old }
    requires place { position (is_own context.now.id) canister.old.contexts ≡ Some place }
    requires there { slice_get canister.old.contexts place ≡ Some context.now }
    requires code { IsSome canister.old.code }
    ensures work { IfOk result (λ w. (code : SomeCode) → (seen canister.old).code ≡ Some code
        → work_of context.now.id canister.new w ≡ answered_with (enters_by system_api) env (seen canister.old) context.now.id answer.callback answer.response context.now
        (answer_view (view env (seen canister.old) context.now) answer.response answer.refund) code) }
    ensures keeps { IsCanister canister.new }
    ensures used { IfOk result (λ w. w.used ≤ 2 * env.limit) }
{
    let _next_call = canister.next_call;
    let env = env.env();
    let AwaitedAnswer {
        callback,
        response,
        refund,
    } = answer;
    let target = target_of(&callback, &response);
    let kind = kind_of(&response);
    let copies = copy_for_view(alloc, canister)?;
    let view = with_answer(
        view_in(alloc, env, canister, copies, context),
        response,
        refund,
    );
    let Some(code) = &canister.code else {
        unreachable!();
    };
    let Entered { ended, used } = attempt(
        alloc,
        code.get(),
        &mut canister.store,
        Entry { target, kind, view },
        env.limit,
        true,
    )?;
    match ended {
        Ok(effects) => returned(alloc, canister, place, context, effects, used),
        Err(cause) => {
            let more = clean_up(alloc, canister, context, callback.cleanup, env)?;
            Ok(silent(alloc, used + more, Some(cause)))
        }
    }
}
