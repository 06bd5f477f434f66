ghost use Rattle.std.specs.Prelude.{◌≡◌, ◌+◌, ◌-◌, ◌≤◌, ◌<◌, ◌^◌, ℕ, reverse, length, slice_get, IfOk};
ghost use Rattle.wm_typing.specs.declared.op.Op.TheVariants as op;
ghost use Rattle.wm_valid.specs.Bodies.{hosts_of};
ghost use Rattle.wm_semantics.specs.Configs.{Config};
ghost use Rattle.wm_semantics.specs.Steps.{state};
ghost use Rattle.wm_run.specs.Activations.{Stopped, Follows, Pays};
ghost use Rattle.wm_run.specs.Callees.{callee_of};
ghost use Rattle.wm_run.specs.UnderWay.{UnderWay, StillUnderWay};

use crate::activation::{Activation, Callee, Next};
use crate::calls::{enter, trapped};
use crate::hosts::ask;
use crate::stack::{Stacks, topmost};
use crate::table::look_up;
use crate::word::number_at;
use ic_base::NoMemory;
use wm_semantics::{Host, Meter, Trap};
use wm_store::Store;
use wm_tree::Module;
use wm_valid::Valid;

fn imports_of(module: &Module) -> usize
    ensures { result ≡ length «module».now.imports }
{
    module.imports.items.len()
}

/// Where the function of that index is found.
pub(crate) fn callee(valid: &Valid, function: u32) -> Callee
    ensures { result ≡ callee_of (slice_get (hosts_of valid.now.«module») function) (function - length (hosts_of valid.now.«module»)) }
{
    let imports = imports_of(valid.module());
    match valid.system_call(function) {
        Some(call) => Callee::Host(call.number()),
        None => Callee::Own((function as usize - imports) as u32),
    }
}

/// Calls the function at the place of the table that the topmost operand names, by the type whose index
/// is in the word.
pub(crate) fn call_indirect<H: Host>(
    valid: &Valid,
    stacks: &mut Stacks,
    store: &mut Store,
    host: &mut H,
    meter: &mut Meter,
    here: Activation,
) -> Result<Next, NoMemory>
    requires stopped { (c : Config) × (index : ℕ) × Stopped valid.now here (reverse stacks.old.callers.items) stacks.old.operands.items store.old.lists meter.old.used c (op.CallIndirect index) }
    requires short { here.place < 2 ^ 63 }
    ensures follows { IfOk result (λ next. (c : Config) (index : ℕ) → Stopped valid.now here (reverse stacks.old.callers.items) stacks.old.operands.items store.old.lists meter.old.used c (op.CallIndirect index)
        → Follows H.answers valid.now meter.old.limit (state host.old store.old.lists meter.old.used c) next (reverse stacks.new.callers.items) stacks.new.operands.items host.new store.new.lists meter.new.used) }
    ensures under_way { IfOk result (λ next. (first : ℕ) → UnderWay valid.now first here (reverse stacks.old.callers.items) → StillUnderWay valid.now first here (reverse stacks.new.callers.items) next) }
    ensures begun { store.new.begun ≡ store.old.begun }
    ensures limit { meter.new.limit ≡ meter.old.limit }
    ensures paid { IfOk result (λ next. Pays next meter.old.used meter.new.used) }
    ensures rises { meter.old.used ≤ meter.new.used }
{
    if !meter.charge(1) {
        return Ok(trapped(Trap::Limit));
    }
    let index = number_at(valid, here);
    let place = topmost(stacks.operands.as_slice(), here.top);
    let below = Activation {
        top: here.top - 1,
        ..here
    };
    match look_up(valid, store.table(), index, place) {
        Ok(function) => match callee(valid, function) {
            Callee::Own(number) => enter(valid, stacks, below, number),
            Callee::Host(number) => ask(&mut stacks.operands, store, host, meter, below, number),
        },
        Err(trap) => Ok(trapped(trap)),
    }
}
