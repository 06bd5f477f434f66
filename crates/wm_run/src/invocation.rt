ghost use Rattle.std.specs.Prelude.{◌≡◌, ◌≤◌, ℕ, [], Some, IfOk};
ghost use Rattle.wm_valid.specs.IsValid.{Validated};
ghost use Rattle.wm_store.specs.Lists.{HoldsBytes};
ghost use Rattle.wm_store.specs.Fits.{Fits};
ghost use Rattle.wm_semantics.specs.Steps.{Outcome, state, outcome, Reaches};
ghost use Rattle.wm_semantics.specs.Begin.{calling, IsTarget, Invokes, InvokesOn};
ghost use Rattle.wm_semantics.specs.Fuel.{HostOf, IsFunctional, AgreesWith, Rises, invoked};
ghost use Rattle.wm_run.specs.Firsts.{i32s, IsFirst, EndsIn, AsksAlone};
ghost use Rattle.wm_run.specs.Backtrace.{IsBacktrace, entered_function};
ghost use Rattle.wm_run.specs.UnderWay.{HaltedIn};

use crate::activation::{Callee, Halted, Innermost, RunEnd};
use crate::backtrace::{Backtrace, backtrace_of};
use crate::calls::frame_of;
use crate::indirect::callee;
use crate::machine::run;
use crate::stack::{Stacks, push_frame};
use crate::table::look_up_callback;
use ic_base::NoMemory;
use std::alloc::Global;
use wm_semantics::{Ended, Host, HostAnswer, Meter, Target, Trap};
use wm_store::Store;
use wm_valid::Valid;

/// Calls a function of the host, with nothing around the call.
fn call_alone<H: Host>(
    args: &[u64],
    store: &mut Store,
    host: &mut H,
    meter: &mut Meter,
    number: u32,
) -> Result<Ended, NoMemory>
    requires asks { (v : Validated) × (f : ℕ) × AsksAlone v store.old.lists f args.now number }
    ensures reaches { IfOk result (λ ended. (v : Validated) (f : ℕ) → AsksAlone v store.old.lists f args.entry.now number
        → Reaches H.answers v.«module» meter.old.limit (state host.old store.old.lists meter.old.used (calling f (i32s args.entry.now))) (outcome ended host.new store.new.lists meter.new.used)) }
    ensures begun { store.new.begun ≡ store.old.begun }
    ensures limit { meter.new.limit ≡ meter.old.limit }
    ensures rises { meter.old.used ≤ meter.new.used }
{
    if !meter.charge(1) {
        return Ok(Ended::Trapped(Trap::Limit));
    }
    match host.call(number, args, store, meter)? {
        HostAnswer::Nothing => Ok(Ended::Returned),
        HostAnswer::Number(_) => Ok(Ended::Returned),
        HostAnswer::Trap(trap) => Ok(Ended::Trapped(trap)),
    }
}

/// Runs a function that gives nothing, and takes one i32 at most, which is the only operand.
fn run_function<H: Host>(
    valid: &Valid,
    stacks: &mut Stacks,
    store: &mut Store,
    host: &mut H,
    meter: &mut Meter,
    function: u32,
) -> Result<Halted, NoMemory>
    requires first { IsFirst valid.now store.old.lists function stacks.old.operands.items }
    requires alone { stacks.old.callers.items ≡ [] }
    ensures ends { IfOk result (λ halted. EndsIn H.answers valid.now meter.old.limit host.old store.old.lists meter.old.used function stacks.old.operands.items (outcome halted.ended host.new store.new.lists meter.new.used)) }
    ensures under_way { IfOk result (λ halted. HaltedIn valid.now function stacks.new halted) }
    ensures begun { store.new.begun ≡ store.old.begun }
    ensures limit { meter.new.limit ≡ meter.old.limit }
    ensures rises { meter.old.used ≤ meter.new.used }
{
    match callee(valid, function) {
        Callee::Own(number) => {
            let top = stacks.operands.len();
            let first = push_frame(&mut stacks.operands, frame_of(valid, number), number, top)?;
            let RunEnd { ended, at } = run(valid, stacks, store, host, meter, first)?;
            Ok(Halted {
                ended,
                innermost: Innermost::Own(at),
            })
        }
        Callee::Host(number) => {
            let ended = call_alone(stacks.operands.as_slice(), store, host, meter, number)?;
            Ok(Halted {
                ended,
                innermost: Innermost::Host(number),
            })
        }
    }
}

fn run_target<H: Host>(
    valid: &Valid,
    stacks: &mut Stacks,
    store: &mut Store,
    target: Target,
    host: &mut H,
    meter: &mut Meter,
) -> Result<Halted, NoMemory>
    requires fits { Fits valid.now.«module» store.old.lists }
    requires bytes { HoldsBytes store.old.lists }
    requires target { IsTarget valid.now.«module» target }
    requires operands { stacks.old.operands.items ≡ [] }
    requires alone { stacks.old.callers.items ≡ [] }
    ensures outcome { IfOk result (λ halted. Invokes H.answers valid.now.«module» meter.old.limit host.old store.old.lists meter.old.used target (outcome halted.ended host.new store.new.lists meter.new.used)) }
    ensures under_way { IfOk result (λ halted. (f : ℕ) → entered_function store.old.lists.table target ≡ Some f → HaltedIn valid.now f stacks.new halted) }
    ensures begun { store.new.begun ≡ store.old.begun }
    ensures limit { meter.new.limit ≡ meter.old.limit }
    ensures rises { meter.old.used ≤ meter.new.used }
{
    let _module = valid.module();
    match target {
        Target::Function(function) => run_function(valid, stacks, store, host, meter, function),
        Target::Element { index, env } => match look_up_callback(valid, store.table(), index) {
            Ok(function) => {
                stacks.operands.push(u64::from(env))?;
                run_function(valid, stacks, store, host, meter, function)
            }
            Err(trap) => Ok(Halted {
                ended: Ended::Trapped(trap),
                innermost: Innermost::Nowhere,
            }),
        },
    }
}

/// Runs a function of the module on stacks of its own, which then hold what was under way when the run ended. They are lent:
/// moved out, they would be copied, also where nobody asks for them.
fn run_to_end<H: Host>(
    valid: &Valid,
    stacks: &mut Stacks,
    store: &mut Store,
    target: Target,
    host: &mut H,
    meter: &mut Meter,
) -> Result<Halted, NoMemory>
    // The store is one of the module.
    requires fits { Fits valid.now.«module» store.old.lists }
    // A function that is invoked by its index has the type () -> ().
    requires target { IsTarget valid.now.«module» target }
    // Nothing is under way.
    requires operands { stacks.old.operands.items ≡ [] }
    requires alone { stacks.old.callers.items ≡ [] }
    // What the reductions end in.
    ensures outcome { IfOk result (λ halted. Invokes H.answers valid.now.«module» meter.old.limit host.old store.old.lists meter.old.used target (outcome halted.ended host.new store.new.lists meter.new.used)) }
    // Nothing else is an outcome, where the host's relation is a function.
    ensures only { IfOk result (λ halted. IsFunctional H.answers → (o : Outcome H) → Invokes H.answers valid.now.«module» meter.old.limit host.old store.old.lists meter.old.used target o
        → o ≡ outcome halted.ended host.new store.new.lists meter.new.used) }
    // The outcome is what the function gives, where the host is one.
    ensures function { IfOk result (λ halted. (reply : HostOf H) → Rises reply → AgreesWith reply H.answers
        → invoked reply valid.now.«module» meter.old.limit host.old store.old.lists meter.old.used target ≡ Some (outcome halted.ended host.new store.new.lists meter.new.used)) }
    // No state on the way is stuck.
    ensures never { InvokesOn H.answers valid.now.«module» meter.old.limit host.old store.old.lists meter.old.used target }
    ensures fits { IfOk result (λ _. Fits valid.now.«module» store.new.lists) }
    ensures under_way { IfOk result (λ halted. (f : ℕ) → entered_function store.old.lists.table target ≡ Some f → HaltedIn valid.now f stacks.new halted) }
    // These hold without memory too.
    ensures begun { store.new.begun ≡ store.old.begun }
    ensures limit { meter.new.limit ≡ meter.old.limit }
    ensures rises { meter.old.used ≤ meter.new.used }
{
    let _module = valid.module();
    store.holds_bytes();
    run_target(valid, stacks, store, target, host, meter)
}

/// Runs a function of the module until it returns or the run traps. The stack of the machine is
/// taken from the allocator; a message's store can be undone afterwards, and also where memory ran
/// out.
pub fn invoke<H: Host>(
    alloc: Global,
    valid: &Valid,
    store: &mut Store,
    target: Target,
    host: &mut H,
    meter: &mut Meter,
) -> Result<Ended, NoMemory>
    // The store is one of the module.
    requires fits { Fits valid.now.«module» store.old.lists }
    // A function that is invoked by its index has the type () -> ().
    requires target { IsTarget valid.now.«module» target }
    // What the reductions end in.
    ensures outcome { IfOk result (λ ended. Invokes H.answers valid.now.«module» meter.old.limit host.old store.old.lists meter.old.used target (outcome ended host.new store.new.lists meter.new.used)) }
    // Nothing else is an outcome, where the host's relation is a function.
    ensures only { IfOk result (λ ended. IsFunctional H.answers → (o : Outcome H) → Invokes H.answers valid.now.«module» meter.old.limit host.old store.old.lists meter.old.used target o
        → o ≡ outcome ended host.new store.new.lists meter.new.used) }
    // The outcome is what the function gives, where the host is one.
    ensures function { IfOk result (λ ended. (reply : HostOf H) → Rises reply → AgreesWith reply H.answers
        → invoked reply valid.now.«module» meter.old.limit host.old store.old.lists meter.old.used target ≡ Some (outcome ended host.new store.new.lists meter.new.used)) }
    // No state on the way is stuck.
    ensures never { InvokesOn H.answers valid.now.«module» meter.old.limit host.old store.old.lists meter.old.used target }
    ensures fits { IfOk result (λ _. Fits valid.now.«module» store.new.lists) }
    // These hold without memory too.
    ensures begun { store.new.begun ≡ store.old.begun }
    ensures limit { meter.new.limit ≡ meter.old.limit }
    ensures rises { meter.old.used ≤ meter.new.used }
{
    let mut stacks = Stacks::new(alloc);
    let Halted { ended, .. } = run_to_end(valid, &mut stacks, store, target, host, meter)?;
    Ok(ended)
}

/// How a run ended, and where it trapped, if it did.
#[derive(Drop)]
pub struct Traced {
    pub ended: Ended,
    /// Nothing, where the run returned.
    pub backtrace: Backtrace,
}

/// Runs a function of the module as `invoke` does, and tells where it trapped.
pub fn invoke_traced<H: Host>(
    alloc: Global,
    valid: &Valid,
    store: &mut Store,
    target: Target,
    host: &mut H,
    meter: &mut Meter,
) -> Result<Traced, NoMemory>
    // The store is one of the module.
    requires fits { Fits valid.now.«module» store.old.lists }
    // A function that is invoked by its index has the type () -> ().
    requires target { IsTarget valid.now.«module» target }
    // What the reductions end in.
    ensures outcome { IfOk result (λ traced. Invokes H.answers valid.now.«module» meter.old.limit host.old store.old.lists meter.old.used target (outcome traced.ended host.new store.new.lists meter.new.used)) }
    // Nothing else is an outcome, where the host's relation is a function.
    ensures only { IfOk result (λ traced. IsFunctional H.answers → (o : Outcome H) → Invokes H.answers valid.now.«module» meter.old.limit host.old store.old.lists meter.old.used target o
        → o ≡ outcome traced.ended host.new store.new.lists meter.new.used) }
    // The outcome is what the function gives, where the host is one.
    ensures function { IfOk result (λ traced. (reply : HostOf H) → Rises reply → AgreesWith reply H.answers
        → invoked reply valid.now.«module» meter.old.limit host.old store.old.lists meter.old.used target ≡ Some (outcome traced.ended host.new store.new.lists meter.new.used)) }
    // No state on the way is stuck.
    ensures never { InvokesOn H.answers valid.now.«module» meter.old.limit host.old store.old.lists meter.old.used target }
    ensures fits { IfOk result (λ _. Fits valid.now.«module» store.new.lists) }
    // The functions that are told are functions of the module, and the outermost is the entry point or the callback that was entered.
    ensures backtrace { IfOk result (λ traced. (f : ℕ) → entered_function store.old.lists.table target ≡ Some f → IsBacktrace valid.now.«module» f traced.backtrace) }
    // These hold without memory too.
    ensures begun { store.new.begun ≡ store.old.begun }
    ensures limit { meter.new.limit ≡ meter.old.limit }
    ensures rises { meter.old.used ≤ meter.new.used }
{
    let mut stacks = Stacks::new(alloc);
    let halted = run_to_end(valid, &mut stacks, store, target, host, meter)?;
    let backtrace = backtrace_of(alloc, valid, store.table(), &stacks, &halted)?;
    let Halted { ended, .. } = halted;
    Ok(Traced { ended, backtrace })
}
