ghost use Rattle.std.specs.Prelude.{◌≡◌, ◌+◌, ◌≤◌, ◌<◌, ◌^◌, List, IfOk, IfErr};
ghost use Rattle.wm_store.specs.Meaning.{finished, stored};
ghost use Rattle.wm_valid.specs.IsValid.{Validated};
ghost use Rattle.wm_semantics.specs.Configs.{Config};
ghost use Rattle.wm_run.specs.declared.activation.Activation.{Activation as Active};
ghost use Rattle.wm_words.specs.Agree.{none_answers, alone_at};
ghost use Rattle.wm_run.specs.Activations.{Stopped, Follows, Pays, ended_range};
ghost use Rattle.wm_words.specs.Ranges.{op_of_range, range_written};
ghost use Rattle.wm_run.specs.UnderWay.{SameFunction};

use crate::activation::{Activation, Next};
use crate::calls::{trap_of, trapped};
use crate::stack::operand;
use ic_base::NoMemory;
use wm_numeric::Failure;
use wm_semantics::{Meter, Trap};
use wm_store::Store;
use wm_words::Range;

/// Writes to that many bytes of memory from a place on, by a second place or a value.
fn write_range(
    range: Range,
    store: &mut Store,
    to: u64,
    source: u64,
    size: u64,
) -> Result<Result<(), Failure>, NoMemory>
    ensures runs { IfOk result (λ done. finished done store.new.lists ≡ stored (range_written range to source size store.old.lists.memory) store.old.lists) }
    ensures failed { IfOk result (λ done. IfErr done (λ _. store.new.lists ≡ store.old.lists)) }
    ensures begun { store.new.begun ≡ store.old.begun }
{
    match range {
        Range::Copy => store.memory_copy(to, source, size),
        Range::Fill => store.memory_fill(to, source, size),
    }
}

/// Goes on after the word, without its operands, or the run ends.
fn end_range(here: Activation, done: Result<(), Failure>) -> Next
    requires there { 3 ≤ here.top }
    requires short { here.place < 2 ^ 63 }
    ensures { result ≡ ended_range here done }
{
    match done {
        Ok(()) => Next::On(Activation {
            place: here.place + 1,
            top: here.top - 3,
            ..here
        }),
        Err(failure) => trapped(trap_of(failure)),
    }
}

/// Does what `memory.copy` or `memory.fill` does. It costs 1 and its size, whether or not it traps.
/// Where there is no memory for it, the charge is made already.
#[inline(always)]
pub(crate) fn run_range(
    range: Range,
    stack: &[u64],
    store: &mut Store,
    meter: &mut Meter,
    here: Activation,
) -> Result<Next, NoMemory>
    requires stopped { (v : Validated) × (callers : List Active) × (c : Config) × Stopped v here callers stack.now store.old.lists meter.old.used c (op_of_range range) }
    requires short { here.place < 2 ^ 63 }
    ensures follows { IfOk result (λ next. (v : Validated) (callers : List Active) (c : Config) → Stopped v here callers stack.now store.old.lists meter.old.used c (op_of_range range)
        → Follows none_answers v meter.old.limit (alone_at store.old.lists meter.old.used c) next callers stack.now tt store.new.lists meter.new.used) }
    ensures same { IfOk result (λ next. SameFunction here next) }
    ensures begun { store.new.begun ≡ store.old.begun }
    ensures limit { meter.new.limit ≡ meter.old.limit }
    ensures paid { IfOk result (λ next. Pays next meter.old.used meter.new.used) }
    ensures rises { meter.old.used ≤ meter.new.used }
{
    let size = operand(stack, here.top, 1);
    if !meter.charge(1 + u128::from(size)) {
        return Ok(trapped(Trap::Limit));
    }
    let source = operand(stack, here.top, 2);
    let to = operand(stack, here.top, 3);
    let done = write_range(range, store, to, source, size)?;
    Ok(end_range(here, done))
}
