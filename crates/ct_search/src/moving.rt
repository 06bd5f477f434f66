ghost use Rattle.std.specs.Prelude.{◌≡◌, ◌++◌, ◌∷◌, [], IfOk};
ghost use Rattle.ct_search.specs.Meaning.{May};
ghost use Rattle.ct_search.specs.Search.{Stays, seen, all_seen, AreHeld, IsAfter, AreAfter, HaveMoves};

use crate::case::Case;
use crate::machine::Machine;
use ic_base::NoMemory;
use std::alloc::Global;

// The order with one more place.
fn longer(alloc: Global, order: &[usize], place: usize) -> Result<Vec<usize>, NoMemory>
    ensures { IfOk result (λ all. all.items ≡ order.now ++ place ∷ []) }
{
    let mut all = order.to_vec(alloc)?;
    all.push(place)?;
    Ok(all)
}

/// The case after one move.
pub(crate) fn case_after<M: Machine>(
    alloc: Global,
    machine: &M,
    keeper: &mut M::Keeper,
    case: &Case<M::Kept>,
    place: usize,
) -> Result<Case<M::Kept>, NoMemory>
where
    M::Kept: Drop,
    requires held { M.Holds keeper.old case.now.kept }
    requires may { May (M.meaning machine.now) (M.state keeper.old case.now.kept) place }
    ensures stays { Stays M.Holds M.state keeper.old keeper.new }
    ensures held { IfOk result (λ after. M.Holds keeper.new after.kept) }
    ensures after { IfOk result (λ after. IsAfter (M.meaning machine.now) (seen M.state keeper.old case.now) place (seen M.state keeper.new after)) }
{
    let order = longer(alloc, &case.order, place)?;
    let kept = machine.moved(alloc, keeper, &case.kept, place)?;
    let key = machine.key(keeper, &kept);
    Ok(Case {
        kept,
        key,
        start: case.start,
        order,
    })
}

/// The cases after each move of a case.
pub(crate) fn cases_after<M: Machine>(
    alloc: Global,
    machine: &M,
    keeper: &mut M::Keeper,
    case: &Case<M::Kept>,
) -> Result<Vec<Case<M::Kept>>, NoMemory>
where
    M::Kept: Drop,
    requires { M.Holds keeper.old case.now.kept }
    ensures stays { Stays M.Holds M.state keeper.old keeper.new }
    ensures held { IfOk result (λ found. AreHeld M.Holds keeper.new found.items) }
    ensures moves { IfOk result (λ found. HaveMoves (M.meaning machine.now) (M.state keeper.old case.now.kept) ((M.meaning machine.now).moves (M.state keeper.old case.now.kept)) (all_seen M.state keeper.new found.items)) }
    ensures after { IfOk result (λ found. AreAfter (M.meaning machine.now) (seen M.state keeper.old case.now) (all_seen M.state keeper.new found.items)) }
{
    let places = machine.moves(alloc, keeper, &case.kept)?;
    let mut found = Vec::new(alloc);
    for place in &places {
        found.push(case_after(alloc, machine, keeper, case, *place)?)?;
    }
    Ok(found)
}
