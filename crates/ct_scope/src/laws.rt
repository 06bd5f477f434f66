//! What holds of names: the function does nothing, and its contract is the law.

ghost use Rattle.std.specs.Prelude.{◌≡◌, List, ℕ, Some, bytes_eq, if◌then◌else◌};
ghost use Rattle.ct_scope.specs.Names.{Named, found, put};
ghost use Rattle.ct_scope.specs.declared.bound.Bound as bound;

/// What is put under a name is found under it, and under others what was there.
pub fn names_are_found()
    ensures { (names : Named bound.Bound) (name other : List ℕ) (value : bound.Bound) → found (put names name value) other ≡ (if bytes_eq other name then Some value else found names other) }
{}
