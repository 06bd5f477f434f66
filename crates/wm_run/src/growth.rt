ghost use Rattle.std.specs.Prelude.{◌≡◌, ◌+◌, ◌≤◌, ◌<◌, ◌^◌, List, nat_le, cond, IfOk};
ghost use Rattle.wm_typing.specs.declared.op.Op.TheVariants as op;
ghost use Rattle.wm_store.specs.Lists.{page_limit, grown};
ghost use Rattle.wm_valid.specs.IsValid.{Validated};
ghost use Rattle.wm_semantics.specs.Configs.{Config};
ghost use Rattle.wm_run.specs.declared.activation.Activation.{Activation as Active};
ghost use Rattle.wm_words.specs.Agree.{none_answers, alone_at};
ghost use Rattle.wm_run.specs.Activations.{Grew, Stopped, Follows, Pays};
ghost use Rattle.wm_run.specs.UnderWay.{SameFunction};

use crate::activation::{Activation, Next};
use crate::calls::trapped;
use crate::stack::{replace_topmost, topmost};
use ic_base::NoMemory;
use wm_semantics::{Meter, Trap};
use wm_store::Store;

/// What it costs to let a memory grow: 1 a page, where it may grow so far, and 1.
fn growth_cost(pages: u32, most: u32, more: u32) -> u128
    ensures cost { result ≡ cond (nat_le (pages + more) most) (1 + more) 1 }
    ensures positive { 0 < result }
{
    if u64::from(pages) + u64::from(more) <= u64::from(most) {
        1 + u128::from(more)
    } else {
        1
    }
}

/// Lets the memory grow. Gives the number that the instruction answers.
fn grow_memory(store: &mut Store, more: u32) -> Result<u64, NoMemory>
    ensures grew { IfOk result (λ n. Grew (grown (page_limit store.old.lists.maximum) more store.old.lists.memory) store.old.lists store.new.lists n) }
    ensures begun { store.new.begun ≡ store.old.begun }
{
    match store.grow(more)? {
        Some(pages) => Ok(u64::from(pages)),
        None => Ok(u64::from(u32::MAX)),
    }
}

/// Does what `memory.grow` does. Where there is no memory for it, the charge is made already.
pub(crate) fn grow(
    stack: &mut Vec<u64>,
    store: &mut Store,
    meter: &mut Meter,
    here: Activation,
) -> Result<Next, NoMemory>
    requires stopped { (v : Validated) × (callers : List Active) × (c : Config) × Stopped v here callers stack.old.items store.old.lists meter.old.used c op.MemoryGrow }
    requires short { here.place < 2 ^ 63 }
    ensures follows { IfOk result (λ next. (v : Validated) (callers : List Active) (c : Config) → Stopped v here callers stack.old.items store.old.lists meter.old.used c op.MemoryGrow
        → Follows none_answers v meter.old.limit (alone_at store.old.lists meter.old.used c) next callers stack.new.items tt store.new.lists meter.new.used) }
    ensures same { IfOk result (λ next. SameFunction here next) }
    ensures begun { store.new.begun ≡ store.old.begun }
    ensures limit { meter.new.limit ≡ meter.old.limit }
    ensures paid { IfOk result (λ next. Pays next meter.old.used meter.new.used) }
    ensures rises { meter.old.used ≤ meter.new.used }
{
    let more = topmost(stack.as_slice(), here.top) as u32;
    if !meter.charge(growth_cost(store.pages(), store.page_limit(), more)) {
        return Ok(trapped(Trap::Limit));
    }
    let number = grow_memory(store, more)?;
    replace_topmost(stack, here.top, number);
    Ok(Next::On(Activation {
        place: here.place + 1,
        ..here
    }))
}
