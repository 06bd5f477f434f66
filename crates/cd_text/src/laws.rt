//! What holds of the text of values: each function does nothing, and its contract is the law.

ghost use Rattle.std.specs.Prelude.{◌≡◌, ◌≤◌, ◌<◌, ◌^◌, ◌↔◌, List, ℕ, length, Some, IsTrue};
ghost use Rattle.cd_types.specs.IsTable.{is_table};
ghost use Rattle.cd_types.specs.declared.entry.Entry.{Entry};
ghost use Rattle.cd_types.specs.declared.entry.TyRef.{TyRef};
ghost use Rattle.cd_codec.specs.AreValues.{HasTypes};
ghost use Rattle.cd_codec.specs.Content.{Content, contents_of};
ghost use Rattle.cd_codec.specs.Measure.{nesting_each, number_each};
ghost use Rattle.cd_names.specs.Names.{IdNames, HaveIds, AreTexts};
ghost use Rattle.cd_text.specs.HoldsBytes.{HoldsBytesAll};
ghost use Rattle.cd_plain.specs.Printed.{printed, printed_named};
ghost use Rattle.cd_text.specs.ReadText.{values_of};
ghost use Rattle.cd_text.specs.Whole.{Said};

/// The function that reads a text (`specs/ReadText`) gives the values that the text says, and
/// nothing else.
pub fn values_read()
    ensures { (table : List Entry) (types : List TyRef) (values : List Content) (text : List ℕ) → IsTrue (is_table table)
        → (values_of table types text ≡ Some values) ↔ Said table types values text }
{}

/// A text says at most one list of values.
pub fn one_said()
    ensures { (table : List Entry) (types : List TyRef) (values others : List Content) (text : List ℕ) → IsTrue (is_table table) → Said table types values text → Said table types others text → values ≡ others }
{}

/// Within the limits of `read`, the text that is printed of values says them.
pub fn print_says()
    ensures { (table : List Entry) (types : List TyRef) (values : List Content) → IsTrue (is_table table) → HasTypes table types values
        → HoldsBytesAll (contents_of values) → nesting_each values ≤ 128 → number_each values ≤ 1000000
        → Said table types values (printed table types values) }
{}

/// So does the text that is printed with names that have the ids which they are for and are UTF-8,
/// as those of each `FieldNames`.
pub fn print_named_says()
    ensures { (names : IdNames) (table : List Entry) (types : List TyRef) (values : List Content) → HaveIds names → AreTexts names → IsTrue (is_table table) → HasTypes table types values
        → HoldsBytesAll (contents_of values) → nesting_each values ≤ 128 → number_each values ≤ 1000000
        → Said table types values (printed_named names table types values) }
{}

/// What a text says has the expected types, where the text is no longer than memory.
pub fn said_has_types()
    ensures { (table : List Entry) (types : List TyRef) (values : List Content) (text : List ℕ) → IsTrue (is_table table) → length text < 2 ^ 64
        → Said table types values text → HasTypes table types values }
{}
