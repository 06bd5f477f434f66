ghost use Rattle.std.specs.Prelude.{◌≡◌, length, map, IfOk};
ghost use Rattle.std.specs.List.{AllByRecursion};
ghost use Rattle.ct_search.specs.Visits.{Tells};
ghost use Rattle.ct_search.specs.Search.{Stays, all_seen, AreHeld, AreStarts};

use crate::case::{Case, Met};
use crate::index::Table;
use crate::machine::Machine;
use crate::moving::cases_after;
use crate::visiting::visit_all;
use ic_base::NoMemory;
use std::alloc::Global;

/// A case for each start.
pub(crate) fn started<M: Machine>(
    alloc: Global,
    machine: &M,
    keeper: &M::Keeper,
    starts: Vec<M::Kept>,
) -> Result<Vec<Case<M::Kept>>, NoMemory>
where
    M::Kept: Drop,
    requires { AllByRecursion (M.Holds keeper.now) starts.items }
    ensures held { IfOk result (λ cases. AreHeld M.Holds keeper.now cases.items) }
    ensures starts { IfOk result (λ cases. AreStarts (M.meaning machine.now) 0 (map (M.state keeper.now) starts.items) (all_seen M.state keeper.now cases.items)) }
{
    let mut cases = Vec::new(alloc);
    for kept in starts {
        let key = machine.key(keeper, &kept);
        let start = cases.len();
        cases.push(Case {
            kept,
            key,
            start,
            order: Vec::new(alloc),
        })?;
    }
    Ok(cases)
}

/// Meets each case that can be reached from the starts, breadth first, up to `most` cases: of each case in turn each move
/// is made, in order, and a case that was not met before comes after the others. A case is a state that is reached
/// by a number of moves.
pub fn explore<M: Machine>(
    alloc: Global,
    machine: &M,
    keeper: &mut M::Keeper,
    starts: Vec<M::Kept>,
    most: usize,
) -> Result<Met<M::Kept>, NoMemory>
where
    M::Kept: Drop,
    requires { AllByRecursion (M.Holds keeper.old) starts.items }
    ensures stays { Stays M.Holds M.state keeper.old keeper.new }
    ensures held { IfOk result (λ met. AreHeld M.Holds keeper.new met.cases.items) }
    ensures met { IfOk result (λ met. Tells (M.meaning machine.now) (map (M.state keeper.old) starts.items) most (all_seen M.state keeper.new met.cases.items) met.all) }
{
    let first = started(alloc, machine, keeper, starts)?;
    let mut met = Table::new(alloc);
    if !visit_all(alloc, machine, keeper, &mut met, first, most)? {
        return Ok(Met {
            cases: met.cases,
            all: false,
        });
    }
    let mut next = 0;
    while next < met.cases.len() {
        let found = cases_after(alloc, machine, keeper, &met.cases[next])?;
        if !visit_all(alloc, machine, keeper, &mut met, found, most)? {
            return Ok(Met {
                cases: met.cases,
                all: false,
            });
        }
        next += 1;
    }
    Ok(Met {
        cases: met.cases,
        all: true,
    })
}
