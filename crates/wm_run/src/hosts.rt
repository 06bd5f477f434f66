ghost use Rattle.std.specs.Prelude.{◌≡◌, ◌+◌, ◌≤◌, ◌<◌, ◌^◌, ◌-◌, ℕ, List, length, take, drop, Some, slice_get, IfOk};
ghost use Rattle.wm_typing.specs.declared.op.Op.TheVariants as op;
ghost use Rattle.wm_valid.specs.declared.system_api.SystemCall.{SystemCall as Called};
ghost use Rattle.wm_valid.specs.SystemApi.{row_of, calls};
ghost use Rattle.wm_valid.specs.IsValid.{Validated};
ghost use Rattle.wm_semantics.specs.Configs.{Config};
ghost use Rattle.wm_semantics.specs.Steps.{state};
ghost use Rattle.wm_run.specs.declared.activation.Activation.{Activation as Active};
ghost use Rattle.wm_run.specs.Activations.{CanAnswer, Answered, Stopped, Follows, Pays};
ghost use Rattle.wm_run.specs.Asking.{Asking};
ghost use Rattle.wm_run.specs.UnderWay.{SameFunction};

use crate::activation::{Activation, Next};
use crate::calls::trapped;
use ic_base::NoMemory;
use wm_semantics::{Host, HostAnswer, Meter, Trap};
use wm_store::Store;
use wm_valid::system_api::SystemCall;

/// The number of parameters of the call that has this number in the table of the System API.
fn parameters(number: u32) -> usize
    requires { (call : Called) × (slice_get calls number ≡ Some call) }
    ensures { (call : Called) → slice_get calls number ≡ Some call → result ≡ length (row_of call).params }
{
    SystemCall::numbered(number).unwrap().params().len()
}

/// The operands from `low` up to `top`.
fn between(stack: &[u64], low: usize, top: usize) -> &[u64]
    requires order { low ≤ top }
    requires within { top ≤ length stack.now }
    ensures { result.now ≡ take (top - low) (drop low stack.now) }
{
    &stack[low..top]
}

/// Puts what the host answers in the place of the arguments, which begin at `low`.
fn take_answer(stack: &mut Vec<u64>, here: Activation, low: usize, answer: HostAnswer) -> Next
    requires room { CanAnswer answer low (length stack.old.items) }
    requires short { here.place < 2 ^ 63 }
    ensures { Answered answer here low stack.old.items stack.new.items result }
{
    let place = here.place + 1;
    match answer {
        HostAnswer::Nothing => Next::On(Activation {
            place,
            top: low,
            ..here
        }),
        HostAnswer::Number(number) => {
            stack[low] = number;
            Next::On(Activation {
                place,
                top: low + 1,
                ..here
            })
        }
        HostAnswer::Trap(trap) => trapped(trap),
    }
}

/// Asks the host for the call that has this number in the table of the System API, once it is paid.
pub(crate) fn ask<H: Host>(
    stack: &mut Vec<u64>,
    store: &mut Store,
    host: &mut H,
    meter: &mut Meter,
    here: Activation,
    number: u32,
) -> Result<Next, NoMemory>
    requires asking { (v : Validated) × (callers : List Active) × (c : Config) × Asking v here callers stack.old.items store.old.lists c number }
    requires paid { (before : ℕ) × (before + 1 ≡ meter.old.used) }
    requires short { here.place < 2 ^ 63 }
    ensures follows { IfOk result (λ next. (v : Validated) (callers : List Active) (c : Config) (before : ℕ) → before + 1 ≤ meter.old.limit → before + 1 ≡ meter.old.used
        → Asking v here callers stack.old.items store.old.lists c number
        → Follows H.answers v meter.old.limit (state host.old store.old.lists before c) next callers stack.new.items host.new store.new.lists meter.new.used) }
    ensures same { IfOk result (λ next. SameFunction here next) }
    ensures begun { store.new.begun ≡ store.old.begun }
    ensures limit { meter.new.limit ≡ meter.old.limit }
    ensures rises { meter.old.used ≤ meter.new.used }
{
    let low = here.top - parameters(number);
    let answer = host.call(
        number,
        between(stack.as_slice(), low, here.top),
        store,
        meter,
    )?;
    Ok(take_answer(stack, here, low, answer))
}

/// Calls the host's function that has this number in the table of the System API.
pub(crate) fn call_host<H: Host>(
    stack: &mut Vec<u64>,
    store: &mut Store,
    host: &mut H,
    meter: &mut Meter,
    here: Activation,
    number: u32,
) -> Result<Next, NoMemory>
    requires stopped { (v : Validated) × (callers : List Active) × (c : Config) × Stopped v here callers stack.old.items store.old.lists meter.old.used c (op.CallHost number) }
    requires short { here.place < 2 ^ 63 }
    ensures follows { IfOk result (λ next. (v : Validated) (callers : List Active) (c : Config) → Stopped v here callers stack.old.items store.old.lists meter.old.used c (op.CallHost number)
        → Follows H.answers v meter.old.limit (state host.old store.old.lists meter.old.used c) next callers stack.new.items host.new store.new.lists meter.new.used) }
    ensures same { IfOk result (λ next. SameFunction here next) }
    ensures begun { store.new.begun ≡ store.old.begun }
    ensures limit { meter.new.limit ≡ meter.old.limit }
    ensures paid { IfOk result (λ next. Pays next meter.old.used meter.new.used) }
    ensures rises { meter.old.used ≤ meter.new.used }
{
    if !meter.charge(1) {
        return Ok(trapped(Trap::Limit));
    }
    ask(stack, store, host, meter, here, number)
}
