ghost use Rattle.std.specs.Prelude.{◌≡◌, ℕ, Some, List, [], length, slice_get};
ghost use Rattle.std.specs.List.{Any};
ghost use Rattle.ct_search.specs.declared.case.Case.{Case as ACase};
ghost use Rattle.ct_search.specs.Meaning.{along, IsAllowed};
ghost use Rattle.ct_search.specs.Visits.{IsComplete, IsEndOf};

use crate::machine::Machine;

/// Where all cases that there are were met, each order that comes to an end, where no move is left, ends in a
/// state that counts as one with that of an end among them, to which an order of the same length leads.
pub fn ends_are_met<M: Machine>(machine: &M)
    ensures { (starts : List M.State) (cases : List (ACase M.State)) (k : ℕ) (from : M.State) (order : List ℕ)
        → IsComplete (M.meaning machine.now) starts cases
        → slice_get starts k ≡ Some from → IsAllowed (M.meaning machine.now) from order
        → (M.meaning machine.now).moves (along (M.meaning machine.now) from order) ≡ []
        → Any (IsEndOf (M.meaning machine.now) from order) cases }
{
    let _machine = machine;
}
