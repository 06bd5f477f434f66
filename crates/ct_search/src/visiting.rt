ghost use Rattle.std.specs.Prelude.{◌≡◌, ◌≤◌, length, IfOk, OnOk};
ghost use Rattle.std.specs.Bool.{OnTrue, OnFalse};
ghost use Rattle.ct_search.specs.Visits.{HasSame, AreOne};
ghost use Rattle.ct_search.specs.Index.{AreUnderKeys};
ghost use Rattle.ct_search.specs.Search.{seen, all_seen, AreHeld, AreKeyed, HasVisited, HaveVisited};

use crate::case::Case;
use crate::index::Table;
use crate::machine::Machine;
use ic_base::NoMemory;
use std::alloc::Global;

// Whether two cases are one.
fn are_one<M: Machine>(
    machine: &M,
    keeper: &M::Keeper,
    case: &Case<M::Kept>,
    other: &Case<M::Kept>,
) -> bool
    requires held { M.Holds keeper.now case.now.kept }
    requires other_held { M.Holds keeper.now other.now.kept }
    requires key { case.now.key ≡ (M.meaning machine.now).key (M.state keeper.now case.now.kept) }
    requires other_key { other.now.key ≡ (M.meaning machine.now).key (M.state keeper.now other.now.kept) }
    ensures yes { OnTrue result (AreOne (M.meaning machine.now) (seen M.state keeper.now case.now) (seen M.state keeper.now other.now)) }
    ensures no { OnFalse result (¬ AreOne (M.meaning machine.now) (seen M.state keeper.now case.now) (seen M.state keeper.now other.now)) }
{
    if other.key != case.key {
        return false;
    }
    if other.order.len() != case.order.len() {
        return false;
    }
    machine.same(keeper, &case.kept, &other.kept)
}

// Whether one of the cases is this one.
fn has_same<M: Machine>(
    machine: &M,
    keeper: &M::Keeper,
    met: &Table<M::Kept>,
    case: &Case<M::Kept>,
) -> bool
    requires indexed { AreUnderKeys met.now.index.places met.now.cases.items }
    requires held { M.Holds keeper.now case.now.kept }
    requires all_held { AreHeld M.Holds keeper.now met.now.cases.items }
    requires key { case.now.key ≡ (M.meaning machine.now).key (M.state keeper.now case.now.kept) }
    requires keyed { AreKeyed (M.meaning machine.now) (all_seen M.state keeper.now met.now.cases.items) }
    ensures yes { OnTrue result (HasSame (M.meaning machine.now) (M.state keeper.now case.now.kept) (length case.now.order.items) (all_seen M.state keeper.now met.now.cases.items)) }
    ensures no { OnFalse result (¬ HasSame (M.meaning machine.now) (M.state keeper.now case.now.kept) (length case.now.order.items) (all_seen M.state keeper.now met.now.cases.items)) }
{
    for place in met.index.under(case.key) {
        if are_one(machine, keeper, case, &met.cases[*place]) {
            return true;
        }
    }
    false
}

/// Puts a case after the others unless it is one of them. Gives whether there was room.
pub(crate) fn visit<M: Machine>(
    alloc: Global,
    machine: &M,
    keeper: &M::Keeper,
    met: &mut Table<M::Kept>,
    case: Case<M::Kept>,
    most: usize,
) -> Result<bool, NoMemory>
where
    M::Kept: Drop,
    requires held { M.Holds keeper.now case.kept }
    requires all_held { AreHeld M.Holds keeper.now met.old.cases.items }
    requires key { case.key ≡ (M.meaning machine.now).key (M.state keeper.now case.kept) }
    requires keyed { AreKeyed (M.meaning machine.now) (all_seen M.state keeper.now met.old.cases.items) }
    requires indexed { AreUnderKeys met.old.index.places met.old.cases.items }
    requires few { length met.old.cases.items ≤ most }
    ensures indexed { OnOk result (AreUnderKeys met.new.index.places met.new.cases.items) }
    ensures held { OnOk result (AreHeld M.Holds keeper.now met.new.cases.items) }
    ensures visited { IfOk result (λ room. HasVisited (M.meaning machine.now) most (all_seen M.state keeper.now met.old.cases.items) (seen M.state keeper.now case) room (all_seen M.state keeper.now met.new.cases.items)) }
{
    if has_same(machine, keeper, met, &case) {
        return Ok(true);
    }
    if met.cases.len() >= most {
        return Ok(false);
    }
    met.push(alloc, case)?;
    Ok(true)
}

/// Puts cases after the others unless they are among them. Gives whether there was room.
pub(crate) fn visit_all<M: Machine>(
    alloc: Global,
    machine: &M,
    keeper: &M::Keeper,
    met: &mut Table<M::Kept>,
    found: Vec<Case<M::Kept>>,
    most: usize,
) -> Result<bool, NoMemory>
where
    M::Kept: Drop,
    requires held { AreHeld M.Holds keeper.now found.items }
    requires all_held { AreHeld M.Holds keeper.now met.old.cases.items }
    requires found { AreKeyed (M.meaning machine.now) (all_seen M.state keeper.now found.items) }
    requires keyed { AreKeyed (M.meaning machine.now) (all_seen M.state keeper.now met.old.cases.items) }
    requires indexed { AreUnderKeys met.old.index.places met.old.cases.items }
    requires few { length met.old.cases.items ≤ most }
    ensures indexed { OnOk result (AreUnderKeys met.new.index.places met.new.cases.items) }
    ensures held { OnOk result (AreHeld M.Holds keeper.now met.new.cases.items) }
    ensures visited { IfOk result (λ room. HaveVisited (M.meaning machine.now) most (all_seen M.state keeper.now met.old.cases.items) (all_seen M.state keeper.now found.items) room (all_seen M.state keeper.now met.new.cases.items)) }
{
    for case in found {
        if !visit(alloc, machine, keeper, met, case, most)? {
            return Ok(false);
        }
    }
    Ok(true)
}
