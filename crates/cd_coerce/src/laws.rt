//! What holds of reading at expected types whatever the tables: each function does nothing, and
//! its contract is the law.

ghost use Rattle.std.specs.Prelude.{◌≡◌, ◌↔◌, ◌≤◌, ◌<◌, ℕ, List, Some, Ok, Err, IsTrue};
ghost use Rattle.std.specs.List.{AllByRecursion};
ghost use Rattle.cd_types.specs.declared.entry.TyRef.{TyRef};
ghost use Rattle.cd_types.specs.declared.entry.Entry.{Entry};
ghost use Rattle.cd_types.specs.IsTable.{is_table};
ghost use Rattle.cd_sub.specs.Sub.{Sub};
ghost use Rattle.cd_codec.specs.Content.{Content};
ghost use Rattle.cd_codec.specs.AreValues.{HasTypes};
ghost use Rattle.cd_codec.specs.Measure.{nesting};
ghost use Rattle.cd_codec.specs.Wire.{Wire};
ghost use Rattle.cd_coerce.specs.Coerce.{IsReadAs};
ghost use Rattle.cd_coerce.specs.declared.fault.DidlFault.{DidlFault};
ghost use Rattle.cd_coerce.specs.Decodes.{Decodes, HasFault};
ghost use Rattle.cd_coerce.specs.Decoded.{decoded};
ghost use Rattle.cd_coerce.specs.Read.{coerced};
ghost use Rattle.cd_coerce.specs.Step.{setting};
ghost use Rattle.cd_coerce.specs.Small.{IsSmall};

use cd_sub::laws::{by_a_rule, decided};

/// A value is read as the one value that the rules of coercion give, if they give one: so they
/// give at most one.
pub fn one_reading()
    ensures { (wire expected : List Entry) (t u : TyRef) (v r : Content) → (coerced (setting wire expected) v t u ≡ Some r) ↔ IsReadAs wire expected t v u r }
{
    decided();
}

/// What is read nests at most twice as deep and two levels more: 258 for a value of a message.
pub fn nests_at_most()
    ensures { (wire expected : List Entry) (t u : TyRef) (v r : Content) → IsReadAs wire expected t v u r → nesting v ≤ 128 → nesting r ≤ 258 }
{}

/// What a value on the wire is read as has the expected type: some bytes spell it at that type.
pub fn has_the_type()
    ensures { (wire expected : List Entry) (t u : TyRef) (v r : Content) (bytes : List ℕ) → IsTrue (is_table expected) → AllByRecursion (λ b. b < 256) bytes → Wire wire t v bytes → IsReadAs wire expected t v u r → (out : List ℕ) × Wire expected u r out }
{}

/// What a message decodes to has the expected types.
pub fn decoded_has_the_types()
    ensures { (expected : List Entry × List TyRef) (bytes : List ℕ) (values : List Content) → IsTrue (is_table expected.0) → AllByRecursion (λ b. b < 256) bytes → Decodes expected bytes values → HasTypes expected.0 expected.1 values }
{}

/// A value whose type is a subtype of the expected one is read as something, unless it has a nat of
/// 2^127 or more. So a message that has a header, whose arguments fit and whose values are spelled
/// is refused for such a nat alone.
pub fn has_a_reading()
    ensures { (wire expected : List Entry) (t u : TyRef) (v : Content) (bytes : List ℕ) → Wire wire t v bytes → Sub wire t expected u → IsSmall v → (r : Content) × IsReadAs wire expected t v u r }
{
    decided();
    by_a_rule();
}

/// What `decode` follows: a function that gives arguments exactly where the bytes decode to them,
/// and each fault exactly where it comes.
pub fn one_answer()
    ensures values { (expected : List Entry × List TyRef) (bytes : List ℕ) (values : List Content) → (decoded expected bytes ≡ Ok values) ↔ Decodes expected bytes values }
    ensures fault { (expected : List Entry × List TyRef) (bytes : List ℕ) (fault : DidlFault) → (decoded expected bytes ≡ Err fault) ↔ HasFault expected bytes fault }
{
    decided();
    one_reading();
}
