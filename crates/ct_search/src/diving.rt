ghost use Rattle.std.specs.Prelude.{◌<◌, ◌≤◌, length, map, IfOk, IfSome, OnOk};
ghost use Rattle.std.specs.List.{AllByRecursion};
ghost use Rattle.ct_search.specs.Visits.{AreMet};
ghost use Rattle.ct_search.specs.Index.{AreUnderKeys};
ghost use Rattle.ct_search.specs.Search.{Stays, all_seen, AreHeld, AreKeyed, AreMoves, GoesDown};

use crate::case::Case;
use crate::exploring::started;
use crate::index::Table;
use crate::machine::Machine;
use crate::moving::case_after;
use crate::visiting::visit;
use ic_base::NoMemory;
use std::alloc::Global;

// Puts the moves of a case before the others, which come later: the list is taken from its end.
fn put_moves<M: Machine>(
    alloc: Global,
    machine: &M,
    keeper: &M::Keeper,
    met: &Table<M::Kept>,
    case: usize,
    moves: &mut Vec<(usize, usize)>,
) -> Result<(), NoMemory>
    requires there { case < length met.now.cases.items }
    requires held { AreHeld M.Holds keeper.now met.now.cases.items }
    requires moves { AreMoves (M.meaning machine.now) (all_seen M.state keeper.now met.now.cases.items) moves.old.items }
    ensures { OnOk result (AreMoves (M.meaning machine.now) (all_seen M.state keeper.now met.now.cases.items) moves.new.items) }
{
    let mut places = machine.moves(alloc, keeper, &met.cases[case].kept)?;
    while let Some(place) = places.pop() {
        moves.push((case, place))?;
    }
    Ok(())
}

// Makes one move after another until a case is met anew, and gives its place: none where no move is left, or no room.
fn find_new<M: Machine>(
    alloc: Global,
    machine: &M,
    keeper: &mut M::Keeper,
    met: &mut Table<M::Kept>,
    moves: &mut Vec<(usize, usize)>,
    most: usize,
) -> Result<Option<usize>, NoMemory>
where
    M::Kept: Drop,
    requires held { AreHeld M.Holds keeper.old met.old.cases.items }
    requires keyed { AreKeyed (M.meaning machine.now) (all_seen M.state keeper.old met.old.cases.items) }
    requires indexed { AreUnderKeys met.old.index.places met.old.cases.items }
    requires few { length met.old.cases.items ≤ most }
    requires moves { AreMoves (M.meaning machine.now) (all_seen M.state keeper.old met.old.cases.items) moves.old.items }
    ensures stays { Stays M.Holds M.state keeper.old keeper.new }
    ensures indexed { OnOk result (AreUnderKeys met.new.index.places met.new.cases.items) }
    ensures down { OnOk result (GoesDown M.Holds M.state (M.meaning machine.now) most keeper.old keeper.new met.old.cases.items met.new.cases.items) }
    ensures moves { OnOk result (AreMoves (M.meaning machine.now) (all_seen M.state keeper.new met.new.cases.items) moves.new.items) }
    ensures new { IfOk result (λ found. IfSome found (λ case. case < length met.new.cases.items)) }
{
    while let Some((case, place)) = moves.pop() {
        let count = met.cases.len();
        let after = case_after(alloc, machine, keeper, &met.cases[case], place)?;
        if !visit(alloc, machine, keeper, met, after, most)? {
            return Ok(None);
        }
        if met.cases.len() > count {
            return Ok(Some(count));
        }
    }
    Ok(None)
}

// Meets cases from the one at a place on: from the one that was met last, which has a move that was not made, the first
// such move is made.
fn go_down<M: Machine>(
    alloc: Global,
    machine: &M,
    keeper: &mut M::Keeper,
    met: &mut Table<M::Kept>,
    first: usize,
    most: usize,
) -> Result<(), NoMemory>
where
    M::Kept: Drop,
    requires there { first < length met.old.cases.items }
    requires held { AreHeld M.Holds keeper.old met.old.cases.items }
    requires keyed { AreKeyed (M.meaning machine.now) (all_seen M.state keeper.old met.old.cases.items) }
    requires indexed { AreUnderKeys met.old.index.places met.old.cases.items }
    requires few { length met.old.cases.items ≤ most }
    ensures stays { Stays M.Holds M.state keeper.old keeper.new }
    ensures indexed { OnOk result (AreUnderKeys met.new.index.places met.new.cases.items) }
    ensures down { OnOk result (GoesDown M.Holds M.state (M.meaning machine.now) most keeper.old keeper.new met.old.cases.items met.new.cases.items) }
{
    let mut moves = Vec::new(alloc);
    put_moves(alloc, machine, keeper, met, first, &mut moves)?;
    for _ in 0..most {
        match find_new(alloc, machine, keeper, met, &mut moves, most)? {
            Some(case) => put_moves(alloc, machine, keeper, met, case, &mut moves)?,
            None => return Ok(()),
        }
    }
    Ok(())
}

/// Meets cases that can be reached from the starts, depth first, up to `most`: from the case that was met last and has a
/// move that was not made, the first such move is made. So some orders come to their ends where `explore` has no room.
pub fn dive<M: Machine>(
    alloc: Global,
    machine: &M,
    keeper: &mut M::Keeper,
    starts: Vec<M::Kept>,
    most: usize,
) -> Result<Vec<Case<M::Kept>>, NoMemory>
where
    M::Kept: Drop,
    requires { AllByRecursion (M.Holds keeper.old) starts.items }
    ensures stays { Stays M.Holds M.state keeper.old keeper.new }
    ensures held { IfOk result (λ cases. AreHeld M.Holds keeper.new cases.items) }
    ensures few { IfOk result (λ cases. length cases.items ≤ most) }
    ensures met { IfOk result (λ cases. AreMet (M.meaning machine.now) (map (M.state keeper.old) starts.items) (all_seen M.state keeper.new cases.items)) }
{
    let mut met = Table::new(alloc);
    let first = started(alloc, machine, keeper, starts)?;
    for case in first {
        let count = met.cases.len();
        visit(alloc, machine, keeper, &mut met, case, most)?;
        if met.cases.len() > count {
            go_down(alloc, machine, keeper, &mut met, count, most)?;
        }
    }
    Ok(met.cases)
}
