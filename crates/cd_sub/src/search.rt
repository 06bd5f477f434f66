ghost use Rattle.std.specs.Prelude.{◌≡◌, ◌↔◌, ℕ, ◌<◌, ◌≤◌, ◌*◌, take, IfOk, OnOk, IsTrue, length};
ghost use Rattle.std.specs.List.{AllByRecursion, list_any};
ghost use Rattle.std.specs.List.Sorted.{IsPermutation};
ghost use Rattle.cd_sub.specs.declared.search.Mark.TheVariants.{Fails};
ghost use Rattle.cd_sub.specs.Parts.{verdict};
ghost use Rattle.cd_sub.specs.Pairs.{parts_at, PlaceSub};
ghost use Rattle.cd_sub.specs.Marks.{IsRight, IsRightBut, Noted, Notes, Searched, Settled, Tried, mark_at, is_failed};

use crate::parts::Side;
use cd_types::TypeTable;
use ic_base::NoMemory;
use std::alloc::Global;

/// What is known of a pair of entries.
#[derive(Clone, Copy, Debug, PartialEq, Eq)]
pub(crate) enum Mark {
    Unknown,
    /// It holds, or it is to be shown in the search that goes on.
    Holds,
    Fails,
}

/// Replaces what was found by the parts of the pair at this place.
fn find_parts(
    first: &TypeTable,
    second: &TypeTable,
    place: u32,
    found: &mut Vec<u32>,
) -> Result<bool, NoMemory>
    requires { place < 2 * (length first.now * length second.now) }
    ensures { IfOk result (λ fits. verdict fits found.new.items ≡ parts_at first.now second.now place) }
{
    let half = first.len() * second.len();
    if place < half {
        let side = Side {
            lower: first,
            upper: second,
            turned: false,
        };
        side.pair(place, found)
    } else {
        let side = Side {
            lower: second,
            upper: first,
            turned: true,
        };
        side.pair(place - half, found)
    }
}

/// Notes those of the parts that are unknown, up to one that fails.
fn note(marks: &mut [Mark], parts: &[u32], met: &mut Vec<u32>) -> Result<bool, NoMemory>
    requires { AllByRecursion (λ part. part < length marks.old) parts.now }
    ensures notes { OnOk result (Notes marks.old marks.new met.old.items met.new.items parts.now) }
    ensures noted { IfOk result (λ all. Noted all marks.old marks.new parts.now) }
{
    for part in parts {
        match marks[*part as usize] {
            Mark::Holds => {}
            Mark::Fails => return Ok(false),
            Mark::Unknown => {
                met.push(*part)?;
                marks[*part as usize] = Mark::Holds;
            }
        }
    }
    Ok(true)
}

/// Notes what a pair that was met rests on, or finds that it fails.
fn show(
    first: &TypeTable,
    second: &TypeTable,
    place: u32,
    marks: &mut [Mark],
    met: &mut Vec<u32>,
    parts: &mut Vec<u32>,
) -> Result<bool, NoMemory>
    requires room { length marks.old ≡ 2 * (length first.now * length second.now) }
    requires place { place < length marks.old }
    requires inside { AllByRecursion (λ place. place < length marks.old) met.old.items }
    requires right { IsRightBut met.old.items first.now second.now marks.old }
    ensures right { OnOk result (IsRightBut met.new.items first.now second.now marks.new) }
    ensures inside { OnOk result (AllByRecursion (λ place. place < length marks.old) met.new.items) }
    ensures tried { IfOk result (λ shown. Tried shown first.now second.now marks.old marks.new met.old.items met.new.items place) }
{
    if !find_parts(first, second, place, parts)? {
        return Ok(false);
    }
    note(marks, parts, met)
}

/// Once all pairs that were in order are shown, puts those met since in the order of their places,
/// and answers where they end. So pairs with the same lower type follow one another, and the marks
/// of what they rest on are near each other in memory.
fn arrange(met: &mut Vec<u32>, next: usize, arranged: usize) -> usize
    requires { next ≤ length met.old.items }
    ensures shown { take next met.new.items ≡ take next met.old.items }
    ensures same { IsPermutation met.old.items met.new.items }
{
    if next < arranged {
        return arranged;
    }
    met[next..].sort_unstable();
    met.len()
}

/// Shows the pairs met, and in turn those that they rest on, until one fails.
fn search(
    alloc: Global,
    first: &TypeTable,
    second: &TypeTable,
    marks: &mut [Mark],
    met: &mut Vec<u32>,
) -> Result<bool, NoMemory>
    requires room { length marks.old ≡ 2 * (length first.now * length second.now) }
    requires inside { AllByRecursion (λ place. place < length marks.old) met.old.items }
    requires right { IsRightBut met.old.items first.now second.now marks.old }
    ensures right { OnOk result (IsRightBut met.new.items first.now second.now marks.new) }
    ensures inside { OnOk result (AllByRecursion (λ place. place < length marks.old) met.new.items) }
    ensures searched { IfOk result (λ all. Searched all first.now second.now marks.new met.old.items) }
{
    let mut parts = Vec::new(alloc);
    let mut next = 0;
    let mut arranged = 0;
    while next < met.len() {
        arranged = arrange(met, next, arranged);
        if !show(first, second, met[next], marks, met, &mut parts)? {
            return Ok(false);
        }
        next += 1;
    }
    Ok(true)
}

fn has_failed(marks: &[Mark], parts: &[u32]) -> bool
    requires { AllByRecursion (λ part. part < length marks.now) parts.now }
    ensures { result ≡ list_any (λ part. is_failed (mark_at marks.now part)) parts.now }
{
    for part in parts {
        if marks[*part as usize] == Mark::Fails {
            return true;
        }
    }
    false
}

/// What is known of a pair in itself: it fails where no rule fits, and where a part has failed.
fn settled(
    first: &TypeTable,
    second: &TypeTable,
    place: u32,
    marks: &[Mark],
    parts: &mut Vec<u32>,
) -> Result<Mark, NoMemory>
    requires room { length marks.now ≡ 2 * (length first.now * length second.now) }
    requires place { place < length marks.now }
    requires fails { (other : ℕ) → mark_at marks.now other ≡ Fails → PlaceSub first.now second.now other → ⊥ }
    ensures { IfOk result (λ mark. Settled mark first.now second.now place) }
{
    if !find_parts(first, second, place, parts)? {
        return Ok(Mark::Fails);
    }
    if has_failed(marks, parts) {
        return Ok(Mark::Fails);
    }
    Ok(Mark::Unknown)
}

/// After a search that failed: marks from the last pair on those that fail, and forgets of the
/// others that they were met.
fn settle(
    alloc: Global,
    first: &TypeTable,
    second: &TypeTable,
    marks: &mut [Mark],
    met: &mut Vec<u32>,
) -> Result<(), NoMemory>
    requires room { length marks.old ≡ 2 * (length first.now * length second.now) }
    requires inside { AllByRecursion (λ place. place < length marks.old) met.old.items }
    requires right { IsRightBut met.old.items first.now second.now marks.old }
    ensures { OnOk result (IsRight first.now second.now marks.new) }
{
    let mut parts = Vec::new(alloc);
    while let Some(place) = met.pop() {
        marks[place as usize] = settled(first, second, place, marks, &mut parts)?;
    }
    Ok(())
}

/// Whether the pair at this place holds.
pub(crate) fn decide(
    alloc: Global,
    first: &TypeTable,
    second: &TypeTable,
    marks: &mut [Mark],
    root: u32,
) -> Result<bool, NoMemory>
    requires room { length marks.old ≡ 2 * (length first.now * length second.now) }
    requires inside { root < length marks.old }
    requires right { IsRight first.now second.now marks.old }
    ensures right { OnOk result (IsRight first.now second.now marks.new) }
    ensures answer { IfOk result (λ yes. IsTrue yes ↔ PlaceSub first.now second.now root) }
{
    match marks[root as usize] {
        Mark::Holds => return Ok(true),
        Mark::Fails => return Ok(false),
        Mark::Unknown => {}
    }
    let mut met = Vec::new(alloc);
    met.push(root)?;
    marks[root as usize] = Mark::Holds;
    let holds = search(alloc, first, second, marks, &mut met)?;
    if !holds {
        settle(alloc, first, second, marks, &mut met)?;
    }
    Ok(holds)
}
