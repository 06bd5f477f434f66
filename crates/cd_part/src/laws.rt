//! What holds of parts of tables: each function does nothing, and its contract is the law.

ghost use Rattle.std.specs.Prelude.{◌≡◌, ◌↔◌, ◌≤◌, ℕ, List, IsTrue};
ghost use Rattle.cd_types.specs.declared.entry.TyRef.{TyRef};
ghost use Rattle.cd_types.specs.declared.entry.Entry.{Entry};
ghost use Rattle.cd_types.specs.IsTable.{is_table};
ghost use Rattle.cd_codec.specs.AreValues.{HasTypes};
ghost use Rattle.cd_codec.specs.Content.{Content};
ghost use Rattle.cd_codec.specs.Measure.{nesting_each, number_each};
ghost use Rattle.cd_codec.specs.Message.{IsMessage};
ghost use Rattle.cd_coerce.specs.Decodes.{Decodes};
ghost use Rattle.cd_part.specs.IsPart.{IsPart};

/// Some types have at most one part of a table.
pub fn one_part()
    ensures { (table : List Entry) (types : List TyRef) (p q : List Entry × List TyRef) → IsPart table types p → IsPart table types q → p ≡ q }
{}

/// The types of a part have exactly the values that they have in the whole table.
pub fn same_values()
    ensures { (table : List Entry) (types : List TyRef) (part : List Entry × List TyRef) (values : List Content) → IsPart table types part → HasTypes part.0 part.1 values ↔ HasTypes table types values }
{}

/// A message over a part is read at the types of the whole table as the values that it has, within
/// the limits of messages.
pub fn read_as_written()
    ensures { (table : List Entry) (types : List TyRef) (part : List Entry × List TyRef) (values : List Content) (bytes : List ℕ) →
        IsTrue (is_table table) → IsPart table types part → IsMessage part.0 part.1 values bytes → nesting_each values ≤ 128 → number_each values ≤ 1000000
        → Decodes (table, types) bytes values }
{}
