ghost use Rattle.std.specs.Prelude.{◌≡◌, [], IfOk};
ghost use Rattle.ic_behaviour.specs.Executing.{phase_number, view, call_view, answer_view};
ghost use Rattle.ic_state.specs.Seen.{seen};
ghost use Rattle.ic_behaviour.specs.Views.{view_for};

use ic_base::NoMemory;
use ic_principal::{Bytes, Principal, Text};
use ic_state::{Canister, Context, Controllers, Env, Phase, Response, View};
use std::alloc::Global;

fn phase_number(phase: &Phase) -> u32
    ensures { result ≡ phase_number phase.now }
{
    match phase {
        Phase::Running => 1,
        Phase::Stopping(_) => 2,
        Phase::Stopped => 3,
    }
}

fn copy_controllers(alloc: Global, controllers: &Controllers) -> Result<Controllers, NoMemory>
    ensures { IfOk result (λ l. l ≡ controllers.now) }
{
    Ok(Controllers {
        items: Vec::from_slice(alloc, controllers.items.as_slice())?,
    })
}

pub fn no_bytes(alloc: Global) -> Bytes
    ensures { result ≡ [] }
{
    Bytes {
        items: Vec::new(alloc),
    }
}

fn no_text(alloc: Global) -> Text
    ensures { result ≡ [] }
{
    Text {
        items: String::new(alloc),
    }
}

/// What code sees of a canister that is copied for it.
#[derive(Drop)]
pub struct Copies {
    pub controllers: Controllers,
    pub certified: Bytes,
}

/// Copies for code what it sees of the canister's lists. They are copied apart from the rest of a view, which is large.
pub fn copy_for_view(alloc: Global, canister: &Canister) -> Result<Copies, NoMemory>
    ensures controllers { IfOk result (λ c. c.controllers ≡ canister.now.controllers) }
    ensures certified { IfOk result (λ c. c.certified ≡ canister.now.certified) }
{
    Ok(Copies {
        controllers: copy_controllers(alloc, &canister.controllers)?,
        certified: canister.certified.copy()?,
    })
}

/// What code sees of the call that it runs for.
#[derive(Clone, Copy)]
pub struct ForCall {
    pub caller: Principal,
    /// The cycles that may still be accepted.
    pub available: u128,
    /// Whether the caller was answered.
    pub responded: bool,
}

/// What code sees of the canister, for this call.
pub fn view_for(alloc: Global, env: Env, canister: &Canister, copies: Copies, call: ForCall) -> View
    requires controllers { copies.controllers ≡ canister.now.controllers }
    requires certified { copies.certified ≡ canister.now.certified }
    ensures { result ≡ view_for env (seen canister.now) call.caller call.available call.responded }
{
    let Copies {
        controllers,
        certified,
    } = copies;
    let ForCall {
        caller,
        available,
        responded,
    } = call;
    View {
        time: env.time,
        id: canister.id,
        balance: canister.balance,
        phase_number: phase_number(&canister.phase),
        controllers,
        caller,
        arg: no_bytes(alloc),
        method: no_text(alloc),
        reject_code: 0,
        reject_message: no_text(alloc),
        refund: 0,
        available,
        responded,
        outstanding: canister.outstanding,
        next_call: canister.next_call,
        certified,
    }
}

/// What code sees that runs in a call context.
pub fn view_in(
    alloc: Global,
    env: Env,
    canister: &Canister,
    copies: Copies,
    context: &Context,
) -> View
    requires controllers { copies.controllers ≡ canister.now.controllers }
    requires certified { copies.certified ≡ canister.now.certified }
    ensures { result ≡ view env (seen canister.now) context.now }
{
    let call = ForCall {
        caller: context.caller,
        available: context.available,
        responded: !context.must_respond,
    };
    view_for(alloc, env, canister, copies, call)
}

/// The view, with a call.
pub fn with_call(view: View, method: Text, arg: Bytes) -> View
    ensures { result ≡ call_view view method arg }
{
    let mut view = view;
    view.method = method;
    view.arg = arg;
    view
}

/// The view, with an answer.
pub fn with_answer(view: View, response: Response, refund: u128) -> View
    ensures { result ≡ answer_view view response refund }
{
    let mut view = view;
    view.refund = refund;
    match response {
        Response::Reply(arg) => view.arg = arg,
        Response::Reject { code, message } => {
            view.reject_code = code;
            view.reject_message = message;
        }
    }
    view
}
