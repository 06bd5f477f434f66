ghost use Rattle.std.specs.Prelude.{◌≡◌, ◌≤◌, nat_le, sum_by};
ghost use Rattle.wm_valid.specs.Sizes as specs;

use crate::invalid::Invalid;
use wm_tree::{FuncCode, FuncType, Module, Run};

/// The largest number of parameters and locals of a function.
const LARGEST_FRAME: usize = 10_000;

fn tables_fit(module: &Module) -> bool
    ensures { result ≡ specs.tables_fit «module».now }
{
    module
        .tables
        .items
        .iter()
        .all(|limits| limits.min <= 65_536)
}

fn memories_fit(module: &Module) -> bool
    ensures { result ≡ specs.memories_fit «module».now }
{
    module.memories.items.iter().all(|limits| limits.min <= 256)
}

/// Whether there are at most that many locals.
fn locals_fit(runs: &[Run], room: usize) -> bool
    ensures { result ≡ nat_le (sum_by (λ r. r.count) runs.now) room }
{
    let mut left = room;
    for run in runs {
        let count = run.count as usize;
        if left < count {
            return false;
        }
        left -= count;
    }
    true
}

/// Whether a function whose type has that index has at most 10,000 parameters and locals.
fn frame_fits(types: &[FuncType], index: u32, code: &FuncCode) -> bool
    ensures { result ≡ nat_le (specs.frame_size types.now (index, code.now)) 10000 }
{
    let params = match types.get(index as usize) {
        None => 0,
        Some(t) => t.params.items.len(),
    };
    params <= LARGEST_FRAME && locals_fit(&code.locals.items, LARGEST_FRAME - params)
}

fn frames_fit(module: &Module) -> bool
    ensures { result ≡ specs.frames_fit «module».now }
{
    let types = module.types.items.as_slice();
    let mut functions = module.functions.items.iter().zip(&module.codes.items);
    functions.all(|(index, code)| frame_fits(types, *index, code))
}

/// The least section with a size that this profile does not admit.
pub(crate) fn size_fault(module: &Module) -> Option<Invalid>
    ensures { result ≡ specs.size_fault «module».now }
{
    let section = if !tables_fit(module) {
        4
    } else if !memories_fit(module) {
        5
    } else if !frames_fit(module) {
        10
    } else {
        return None;
    };
    Some(Invalid::Size { section })
}
