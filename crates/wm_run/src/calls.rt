ghost use Rattle.std.specs.Prelude.{◌≡◌, ◌+◌, ◌≤◌, ◌<◌, ◌^◌, ℕ, suc, Some, nat_le, length, reverse, slice_get, IfOk};
ghost use Rattle.wm_typing.specs.declared.op.Op.TheVariants as op;
ghost use Rattle.wm_typing.specs.FlatCode.{FlatCode as Flat};
ghost use Rattle.wm_store.specs.Lists.{Lists};
ghost use Rattle.wm_semantics.specs.Configs.{Config};
ghost use Rattle.wm_semantics.specs.Reduce.{trap_of};
ghost use Rattle.wm_words.specs.Agree.{none_answers, alone_at};
ghost use Rattle.wm_run.specs.Activations.{CanEnter, Entered, IsRoom, Stopped, Follows, Pays, trapped_by};
ghost use Rattle.wm_run.specs.UnderWay.{UnderWay, StillUnderWay};

use crate::activation::{Activation, Next};
use crate::stack::{Stacks, push_frame};
use ic_base::NoMemory;
use wm_numeric::Failure;
use wm_semantics::{Ended, Meter, Trap};
use wm_typing::{FlatCode, Frame};
use wm_valid::Valid;

/// The most frames of defined functions.
const DEPTH: usize = 512;

/// The code of a defined function.
pub(crate) fn code_of(valid: &Valid, function: u32) -> &FlatCode
    requires { function < length valid.now.codes }
    ensures { slice_get valid.now.codes function ≡ Some result.now }
{
    valid.code(function).unwrap()
}

/// What a call of a defined function makes room for.
pub(crate) fn frame_of(valid: &Valid, function: u32) -> Frame
    requires { function < length valid.now.codes }
    ensures { IsRoom valid.now function result }
{
    code_of(valid, function).frame
}

/// The run ends with that trap.
pub(crate) fn trapped(trap: Trap) -> Next
    ensures { result ≡ trapped_by trap }
{
    Next::Over(Ended::Trapped(trap))
}

/// The trap of an instruction that fails.
pub(crate) fn trap_of(failure: Failure) -> Trap
    ensures { result ≡ trap_of failure }
{
    match failure {
        Failure::DivideByZero => Trap::DivideByZero,
        Failure::Overflow => Trap::Overflow,
        Failure::MemoryBounds => Trap::MemoryBounds,
    }
}

/// Enters a defined function, whose arguments are the topmost operands.
#[inline(always)]
pub(crate) fn enter(
    valid: &Valid,
    stacks: &mut Stacks,
    here: Activation,
    function: u32,
) -> Result<Next, NoMemory>
    requires can { CanEnter valid.now function here.top stacks.old.operands.items }
    requires short { here.place < 2 ^ 63 }
    ensures entered { IfOk result (λ next. (code : Flat) → slice_get valid.now.codes function ≡ Some code
        → Entered (nat_le 512 (suc (length (reverse stacks.old.callers.items)))) code.frame function here (reverse stacks.old.callers.items) (reverse stacks.new.callers.items) stacks.old.operands.items stacks.new.operands.items next) }
    ensures under_way { IfOk result (λ next. (first : ℕ) → UnderWay valid.now first here (reverse stacks.old.callers.items) → StillUnderWay valid.now first here (reverse stacks.new.callers.items) next) }
{
    if stacks.callers.len() + 1 >= DEPTH {
        return Ok(trapped(Trap::Depth));
    }
    let called = push_frame(
        &mut stacks.operands,
        frame_of(valid, function),
        function,
        here.top,
    )?;
    stacks.callers.push(Activation {
        place: here.place + 1,
        top: called.layout.locals,
        ..here
    })?;
    Ok(Next::On(called))
}

/// Calls a defined function.
#[inline(always)]
pub(crate) fn call(
    valid: &Valid,
    stacks: &mut Stacks,
    meter: &mut Meter,
    here: Activation,
    function: u32,
) -> Result<Next, NoMemory>
    requires stopped { (s : Lists) × (c : Config) × Stopped valid.now here (reverse stacks.old.callers.items) stacks.old.operands.items s meter.old.used c (op.Call function) }
    requires short { here.place < 2 ^ 63 }
    ensures follows { IfOk result (λ next. (s : Lists) (c : Config) → Stopped valid.now here (reverse stacks.old.callers.items) stacks.old.operands.items s meter.old.used c (op.Call function)
        → Follows none_answers valid.now meter.old.limit (alone_at s meter.old.used c) next (reverse stacks.new.callers.items) stacks.new.operands.items tt s meter.new.used) }
    ensures under_way { IfOk result (λ next. (first : ℕ) → UnderWay valid.now first here (reverse stacks.old.callers.items) → StillUnderWay valid.now first here (reverse stacks.new.callers.items) next) }
    ensures limit { meter.new.limit ≡ meter.old.limit }
    ensures paid { IfOk result (λ next. Pays next meter.old.used meter.new.used) }
    ensures rises { meter.old.used ≤ meter.new.used }
{
    if !meter.charge(1) {
        return Ok(trapped(Trap::Limit));
    }
    enter(valid, stacks, here, function)
}
