//! What holds of subtyping whatever the tables: each function does nothing, and its contract is
//! the law.

ghost use Rattle.std.specs.Prelude.{◌↔◌, Bool, List, IsTrue, length};
ghost use Rattle.cd_types.specs.declared.entry.TyRef.{TyRef};
ghost use Rattle.cd_types.specs.declared.entry.Entry.{Entry};
ghost use Rattle.cd_types.specs.IsInside.{is_inside};
ghost use Rattle.cd_types.specs.IsTable.{is_table};
ghost use Rattle.cd_types.specs.Shape.{shape};
ghost use Rattle.cd_sub.specs.Below.{below};
ghost use Rattle.cd_sub.specs.Rule.{Rule};
ghost use Rattle.cd_sub.specs.Sub.{Sub, IsClosed};

/// A test decides subtyping.
pub fn decided()
    ensures { (first second : List Entry) (a b : TyRef) → IsTrue (below first a second b) ↔ Sub first a second b }
{}

/// Subtyping is the greatest relation with the rules: whatever is closed under them is within it.
pub fn greatest()
    ensures { (first second : List Entry) (test turned : TyRef → TyRef → Bool) → IsClosed test turned first second → IsClosed turned test second first → (a b : TyRef) → IsTrue (test a b) → Sub first a second b }
{}

/// Each type of a well formed table is a subtype of itself. Subtyping is not transitive: by the
/// rules `record {0: nat}` is below `record {}`, which is below `record {0: null}`, and the first
/// is not below the last.
pub fn reflexive()
    ensures { (table : List Entry) (a : TyRef) → IsTrue (is_table table) → IsTrue (is_inside (length table) a) → Sub table a table a }
{}

/// A subtype is one by a rule whose parts are subtypes.
pub fn by_a_rule()
    ensures { (first second : List Entry) (a b : TyRef) → Sub first a second b → Rule (λ s t. Sub first s second t) (λ t s. Sub second t first s) first second (shape first a) (shape second b) }
{}
