ghost use Rattle.std.specs.Prelude.{◌≡◌, ◌++◌, IfOk, OnOk, IfSome, Some, option_map, List};
ghost use Rattle.cd_codec.specs.View.{views};
ghost use Rattle.ct_patterns.specs.Views.{Bound, part_view, binding_views};
ghost use Rattle.ct_patterns.specs.Meets.{Meets, bound};
ghost use Rattle.ct_patterns.specs.Met.{met};

use crate::opening::{open_step, open_values};
use crate::step::{Binding, Bindings, Part, Step};
use cd_codec::Value;
use ic_base::NoMemory;
use std::alloc::Global;

// Adds what a step binds to a value.
fn bind<'a, 'v>(
    step: &Step<'a>,
    part: Part<'v>,
    bindings: &mut Vec<Binding<'a, 'v>>,
) -> Result<(), NoMemory>
    ensures { OnOk result (binding_views bindings.new.items ≡ binding_views bindings.old.items ++ bound step.now (part_view part.entry)) }
{
    match step {
        Step::Bound { name, ty } => {
            let name = name.copy();
            let ty = *ty;
            bindings.push(Binding { name, ty, part })?;
        }
        Step::Any => {}
        Step::Is(_) => {}
        Step::Opt => {}
        Step::Seq(_) => {}
        Step::Rec(_) => {}
        Step::Var(_) => {}
    }
    Ok(())
}

fn meet_steps<'a, 'v>(
    alloc: Global,
    pattern: &[Step<'a>],
    values: &'v [Value],
) -> Result<Option<Bindings<'a, 'v>>, NoMemory>
    ensures { IfOk result (λ found. option_map (λ bindings. binding_views bindings.items.items) found ≡ met pattern.now (views values.now)) }
{
    let mut bindings = Vec::new(alloc);
    let mut next = Vec::new(alloc);
    open_values(values, &mut next)?;
    for step in pattern {
        let Some(part) = next.pop() else {
            return Ok(None);
        };
        bind(step, part, &mut bindings)?;
        if !open_step(step, part, &mut next)? {
            return Ok(None);
        }
    }
    if next.is_empty() {
        Ok(Some(Bindings { items: bindings }))
    } else {
        Ok(None)
    }
}

/// What a pattern binds, if values meet it. Time grows with the pattern and the values that its steps
/// are about; no call recurses.
pub fn meet<'a, 'v>(
    alloc: Global,
    pattern: &[Step<'a>],
    values: &'v [Value],
) -> Result<Option<Bindings<'a, 'v>>, NoMemory>
    // The values meet the pattern, which binds what is answered.
    ensures found { IfOk result (λ found. IfSome found (λ bindings. Meets pattern.now (views values.now) (binding_views bindings.items.items))) }
    // What the pattern binds to values that meet it is answered.
    ensures only { (bindings : List Bound) → Meets pattern.now (views values.now) bindings → IfOk result (λ found. option_map (λ b. binding_views b.items.items) found ≡ Some bindings) }
{
    meet_steps(alloc, pattern, values)
}
