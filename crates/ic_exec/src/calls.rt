ghost use Rattle.std.specs.Prelude.{◌≡◌, ◌≤◌, Some, slice_get, IfOk};
ghost use Rattle.std.specs.List.{position};
ghost use Rattle.ic_behaviour.specs.State.{Code as SomeCode};
ghost use Rattle.ic_behaviour.specs.Entry.{enters_by};
ghost use Rattle.ic_behaviour.specs.Executing.{is_own, called};
ghost use Rattle.ic_state.specs.Seen.{seen};
ghost use Rattle.ic_state.specs.IsCanister.{IsCanister};
ghost use Rattle.ic_calls.specs.Received.{CanEnter};
ghost use Rattle.ic_api.specs.System.{system_api};
ghost use Rattle.ic_exec.specs.Executed.{parts_of, work_of};

use crate::effects::{answer_alone, returned};
use crate::work::{Work, silent};
use ic_base::NoMemory;
use ic_entry::{Entered, Entry, attempt, copy_for_view, view_in, with_call};
use ic_principal::{Bytes, Text};
use ic_state::{Admitted, Canister, Context, EntryKind, Env};
use std::alloc::Global;
use wm_semantics::Target;

/// The method that a call reaches, and what it is told.
#[derive(Drop)]
pub struct PublicMethod {
    pub name: Text,
    pub entry: Admitted,
    pub arg: Bytes,
}

// The function, what kind of entry it is, and whether what it does to the store is kept.
fn parts_of(entry: Admitted) -> (u32, EntryKind, bool)
    ensures { result ≡ parts_of entry }
{
    match entry {
        Admitted::Update(function) => (function, EntryKind::Update, true),
        Admitted::Query(function) => (function, EntryKind::Query, false),
    }
}

/// Runs a method in the context of its call, which is at that place.
pub fn run_call(
    alloc: Global,
    canister: &mut Canister,
    place: usize,
    context: &Context,
    method: PublicMethod,
    env: Env,
) -> Result<Work, NoMemory>
    requires keeps { IsCanister canister.old }
    requires place { position (is_own context.now.id) canister.old.contexts ≡ Some place }
    requires there { slice_get canister.old.contexts place ≡ Some context.now }
    requires entry { CanEnter canister.old.code method.entry }
    ensures work { IfOk result (λ w. (code : SomeCode) → (seen canister.old).code ≡ Some code
        → work_of context.now.id canister.new w ≡ called (enters_by system_api) env (seen canister.old) context.now.id context.now method.name method.arg code method.entry) }
    ensures keeps { IsCanister canister.new }
    ensures used { IfOk result (λ w. w.used ≤ env.limit) }
{
    let _next_call = canister.next_call;
    let PublicMethod { name, entry, arg } = method;
    let copies = copy_for_view(alloc, canister)?;
    let view = with_call(view_in(alloc, env, canister, copies, context), name, arg);
    let (function, kind, keeps) = parts_of(entry);
    let Some(code) = &canister.code else {
        unreachable!();
    };
    let Entered { ended, used } = attempt(
        alloc,
        code.get(),
        &mut canister.store,
        Entry {
            target: Target::Function(function),
            kind,
            view,
        },
        env.limit,
        keeps,
    )?;
    match ended {
        Ok(effects) => {
            if keeps {
                returned(alloc, canister, place, context, effects, used)
            } else {
                let effects = answer_alone(alloc, canister, *context, effects)?;
                returned(alloc, canister, place, context, effects, used)
            }
        }
        Err(cause) => Ok(silent(alloc, used, Some(cause))),
    }
}
