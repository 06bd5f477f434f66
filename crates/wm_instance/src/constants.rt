ghost use Rattle.std.specs.Prelude.{◌≡◌, ◌+◌, map, nat_le, IfOk};
ghost use Rattle.wm_store.specs.Fits as store;
ghost use Rattle.wm_semantics.specs.Instance as specs;

use ic_base::NoMemory;
use std::alloc::Global;
use wm_numeric::{int32, int64};
use wm_tree::{Element, GlobalDef, Instr, Limits, Segment};

/// The value of a constant expression.
pub(crate) fn constant_of(words: &[Instr]) -> u64
    ensures { result ≡ specs.constant_of words.now }
{
    match words {
        [Instr::I32Const(z)] => int32::unsigned(*z),
        [Instr::I64Const(z)] => int64::unsigned(*z),
        _ => 0,
    }
}

/// The first value of each global.
pub(crate) fn globals_of(alloc: Global, globals: &[GlobalDef]) -> Result<Vec<u64>, NoMemory>
    ensures { IfOk result (λ values. values.items ≡ map (λ g. specs.constant_of g.init) globals.now) }
{
    let mut values = Vec::new(alloc);
    for global in globals {
        values.push(constant_of(&global.init.items))?;
    }
    Ok(values)
}

/// The declared minimum, 0 where nothing is declared.
pub(crate) fn minimum_of(limits: &[Limits]) -> u32
    ensures { result ≡ store.minimum_of limits.now }
{
    match limits {
        [] => 0,
        [first, ..] => first.min,
    }
}

/// The declared maximum, if there is one.
pub(crate) fn maximum_of(limits: &[Limits]) -> Option<u32>
    ensures { result ≡ store.maximum_of limits.now }
{
    match limits {
        [] => None,
        [first, ..] => first.max,
    }
}

/// Whether that many elements from a place on do not pass the end of a list of that size.
fn fits(size: u64, at: u64, count: usize) -> bool
    ensures { result ≡ nat_le (at + count) size }
{
    match at.checked_add(count as u64) {
        Some(end) => end <= size,
        None => false,
    }
}

pub(crate) fn elements_fit(size: u64, elements: &[Element]) -> bool
    ensures { result ≡ specs.elements_fit size elements.now }
{
    elements.iter().all(|element| {
        fits(
            size,
            constant_of(&element.offset.items),
            element.functions.items.len(),
        )
    })
}

pub(crate) fn segments_fit(size: u64, segments: &[Segment]) -> bool
    ensures { result ≡ specs.segments_fit size segments.now }
{
    segments.iter().all(|segment| {
        fits(
            size,
            constant_of(&segment.offset.items),
            segment.bytes.items.len(),
        )
    })
}
