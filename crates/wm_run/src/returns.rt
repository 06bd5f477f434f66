ghost use Rattle.std.specs.Prelude.{◌≡◌, ◌+◌, ◌≤◌, ◌<◌, ℕ, reverse, length, slice_get, Some};
ghost use Rattle.wm_typing.specs.declared.op.Op.TheVariants as op;
ghost use Rattle.wm_store.specs.Lists.{Lists};
ghost use Rattle.wm_semantics.specs.Configs.{Config};
ghost use Rattle.wm_words.specs.Agree.{none_answers, alone_at};
ghost use Rattle.wm_run.specs.Activations.{Stopped, Follows, Drops, Pays};
ghost use Rattle.wm_run.specs.UnderWay.{UnderWay, StillUnderWay};

use crate::activation::{Activation, Next};
use crate::calls::{frame_of, trapped};
use crate::stack::{Stacks, leave};
use wm_semantics::{Meter, Trap};
use wm_valid::Valid;

/// Leaves the function after the last word of its body.
pub(crate) fn finish(valid: &Valid, stacks: &mut Stacks, here: Activation) -> Next
    requires stopped { (s : Lists) × (used : ℕ) × (c : Config) × Stopped valid.now here (reverse stacks.old.callers.items) stacks.old.operands.items s used c op.Finish }
    ensures follows { (s : Lists) (used limit : ℕ) (c : Config) → used ≤ limit → Stopped valid.now here (reverse stacks.old.callers.items) stacks.old.operands.items s used c op.Finish
        → Follows none_answers valid.now limit (alone_at s used c) result (reverse stacks.new.callers.items) stacks.new.operands.items tt s used }
    ensures under_way { (first : ℕ) → UnderWay valid.now first here (reverse stacks.old.callers.items) → StillUnderWay valid.now first here (reverse stacks.new.callers.items) result }
    ensures drops { Drops result (length stacks.old.callers.items) (length stacks.new.callers.items) }
{
    let gives = frame_of(valid, here.function).result;
    leave(stacks, here.top, gives)
}

/// Leaves the function at a `return`.
pub(crate) fn return_early(
    valid: &Valid,
    stacks: &mut Stacks,
    meter: &mut Meter,
    here: Activation,
) -> Next
    requires stopped { (s : Lists) × (c : Config) × Stopped valid.now here (reverse stacks.old.callers.items) stacks.old.operands.items s meter.old.used c op.Return }
    ensures follows { (s : Lists) (c : Config) → Stopped valid.now here (reverse stacks.old.callers.items) stacks.old.operands.items s meter.old.used c op.Return
        → Follows none_answers valid.now meter.old.limit (alone_at s meter.old.used c) result (reverse stacks.new.callers.items) stacks.new.operands.items tt s meter.new.used }
    ensures under_way { (first : ℕ) → UnderWay valid.now first here (reverse stacks.old.callers.items) → StillUnderWay valid.now first here (reverse stacks.new.callers.items) result }
    ensures limit { meter.new.limit ≡ meter.old.limit }
    ensures paid { Pays result meter.old.used meter.new.used }
    ensures rises { meter.old.used ≤ meter.new.used }
{
    if !meter.charge(1) {
        return trapped(Trap::Limit);
    }
    let gives = frame_of(valid, here.function).result;
    leave(stacks, here.top, gives)
}
