ghost use Rattle.std.specs.Prelude.{◌≡◌, ◌+◌, ◌<◌, ◌≤◌, ◌^◌, ℕ, Some, None, option_map, IfOk, IfSome, IsSome};
ghost use Rattle.std.specs.Bool.{OnTrue, OnFalse};
ghost use Rattle.ic_behaviour.specs.State.{Code as SomeCode};
ghost use Rattle.ic_behaviour.specs.Outcomes.{Outcome};
ghost use Rattle.ic_behaviour.specs.Entry.{enters_by};
ghost use Rattle.ic_state.specs.Seen.{seen};
ghost use Rattle.ic_state.specs.IsCanister.{IsCanister};
ghost use Rattle.ic_api.specs.System.{system_api};
ghost use Rattle.ic_calls.specs.Received.{CanEnter};
ghost use Rattle.ic_entry.specs.Entered.{told};
ghost use Rattle.ic_behaviour.specs.Views.{user_view};
ghost use Rattle.ic_entry.specs.Query.{query_of, function_in, query_response, response_to};
ghost use Rattle.ic_entry.specs.Inspection.{inspection_of, is_accepted};

use crate::entering::{Entered, Entry, attempt};
use crate::views::{ForCall, copy_for_view, view_for, with_call};
use ic_base::NoMemory;
use ic_calls::{no_response, refused, trapped_by};
use ic_principal::{Bytes, Principal, Text};
use ic_state::{Admitted, Canister, Effects, EntryKind, Env, Phase, Refusal, Response, View};
use std::alloc::Global;
use wm_semantics::Target;
use wm_valid::EntryName;

/// What a user sees who asks without a call.
pub fn user_view(
    alloc: Global,
    env: Env,
    canister: &Canister,
    sender: Principal,
    method: &str,
    arg: Bytes,
) -> Result<View, NoMemory>
    ensures { IfOk result (λ v. v ≡ user_view env (seen canister.now) sender method.now arg) }
{
    let method = Text {
        items: String::from_str(alloc, method)?,
    };
    let copies = copy_for_view(alloc, canister)?;
    let call = ForCall {
        caller: sender,
        available: 0,
        responded: false,
    };
    let view = view_for(alloc, env, canister, copies, call);
    Ok(with_call(view, method, arg))
}

// What the user of a query is told.
fn response_to(alloc: Global, entered: Entered) -> Result<Response, NoMemory>
    ensures { IfOk result (λ r. (outcome : Outcome) → entered ≡ told outcome → r ≡ response_to outcome) }
{
    let Entered { ended, .. } = entered;
    match ended {
        Ok(effects) => {
            let Effects { answer, .. } = effects;
            match answer {
                Some((response, _)) => Ok(response),
                None => no_response(alloc),
            }
        }
        Err(cause) => trapped_by(alloc, &cause),
    }
}

// The function of the query of that name.
fn query_of(canister: &Canister, method: &str) -> Result<u32, Refusal>
    ensures query { result ≡ function_in (query_of (seen canister.now).phase (seen canister.now).code method.now) }
    ensures entry { IfOk result (λ f. CanEnter canister.now.code (Admitted.Query f)) }
{
    let Phase::Running = &canister.phase else {
        return Err(Refusal::NotRunning);
    };
    let Some(code) = &canister.code else {
        return Err(Refusal::NoModule);
    };
    match code.get().valid.entry(EntryName::Query, method) {
        Some(function) => Ok(function),
        None => Err(Refusal::NoMethod),
    }
}

// Enters the function for a user who asks without a call, with this view. Nothing that it does is kept.
fn ask(
    alloc: Global,
    canister: &mut Canister,
    function: u32,
    kind: EntryKind,
    view: View,
    limit: u64,
) -> Result<Entered, NoMemory>
    requires keeps { IsCanister canister.old }
    requires entry { CanEnter canister.old.code (Admitted.Query function) }
    requires cycles { view.balance + view.available < 2 ^ 127 }
    requires outstanding { view.outstanding ≤ 500 }
    ensures entered { IfOk result (λ entered. (code : SomeCode) → (seen canister.old).code ≡ Some code
        → entered ≡ told (enters_by system_api code canister.old.store.lists (Target.Function function) kind view limit)) }
    // Without memory too.
    ensures same { canister.new ≡ canister.old }
{
    let Some(code) = &canister.code else {
        unreachable!();
    };
    let entry = Entry {
        target: Target::Function(function),
        kind,
        view,
    };
    attempt(alloc, code.get(), &mut canister.store, entry, limit, false)
}

/// Answers a user's query (IC Interface Specification, "Request: Query call"). It costs no cycles.
pub fn query(
    alloc: Global,
    canister: &mut Canister,
    sender: Principal,
    method: &str,
    arg: Bytes,
    env: Env,
) -> Result<Response, NoMemory>
    requires { IsCanister canister.old }
    ensures response { IfOk result (λ r. r ≡ query_response (enters_by system_api) env (seen canister.old) sender method.now arg) }
    // Without memory too.
    ensures same { canister.new ≡ canister.old }
{
    match query_of(canister, method) {
        Err(refusal) => refused(alloc, refusal),
        Ok(function) => {
            let view = user_view(alloc, env, canister, sender, method, arg)?;
            let entered = ask(alloc, canister, function, EntryKind::Query, view, env.limit)?;
            response_to(alloc, entered)
        }
    }
}

// The function that looks at users' calls, where the canister is running and has one.
fn inspection_of(canister: &Canister) -> Option<u32>
    ensures inspection { result ≡ option_map (λ (entry : SomeCode × ℕ). entry.1) (inspection_of (seen canister.now).phase (seen canister.now).code) }
    ensures entry { IfSome result (λ f. CanEnter canister.now.code (Admitted.Query f)) }
{
    let Phase::Running = &canister.phase else {
        return None;
    };
    match &canister.code {
        Some(code) => code.get().valid.entry(EntryName::Inspect, ""),
        None => None,
    }
}

/// Whether the canister looks at users' calls before they are accepted: it is running, and its code has
/// the entry point.
pub fn inspects(canister: &Canister) -> bool
    ensures yes { OnTrue result (IsSome (inspection_of (seen canister.now).phase (seen canister.now).code)) }
    ensures no { OnFalse result (inspection_of (seen canister.now).phase (seen canister.now).code ≡ None) }
{
    inspection_of(canister).is_some()
}

/// Whether the canister accepts a user's call (IC Interface Specification, "Ingress message
/// inspection"). One that is not running, or does not look at calls, accepts it. It costs no cycles.
pub fn inspect(
    alloc: Global,
    canister: &mut Canister,
    sender: Principal,
    method: &str,
    arg: Bytes,
    env: Env,
) -> Result<bool, NoMemory>
    requires { IsCanister canister.old }
    ensures accepted { IfOk result (λ b. b ≡ is_accepted (enters_by system_api) env (seen canister.old) sender method.now arg) }
    // Without memory too.
    ensures same { canister.new ≡ canister.old }
{
    let Some(function) = inspection_of(canister) else {
        return Ok(true);
    };
    let view = user_view(alloc, env, canister, sender, method, arg)?;
    let entered = ask(
        alloc,
        canister,
        function,
        EntryKind::Inspect,
        view,
        env.limit,
    )?;
    let Entered { ended, .. } = entered;
    match ended {
        Ok(effects) => Ok(effects.accepted_message),
        Err(_) => Ok(false),
    }
}
