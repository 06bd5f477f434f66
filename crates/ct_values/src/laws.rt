//! What holds of patterns at types: each function does nothing, and its contract is the law.

ghost use Rattle.std.specs.Prelude.{◌≡◌, List, Some, false, IsTrue};
ghost use Rattle.cd_types.specs.IsTable.{is_table};
ghost use Rattle.cd_types.specs.declared.entry.Entry.{Entry};
ghost use Rattle.cd_types.specs.declared.entry.TyRef.{TyRef};
ghost use Rattle.cd_codec.specs.Content.{Content};
ghost use Rattle.cd_tokens.specs.Token.{Token};
ghost use Rattle.ct_values.specs.declared.reader.Admitted.{Admitted};
ghost use Rattle.ct_values.specs.Steps.{Step};
ghost use Rattle.ct_values.specs.Spelled.{spelled};
ghost use Rattle.ct_values.specs.SayValues.{SayValues, AreMetBy};

/// Where no name is admitted in place of a value, tokens that say values, as `cd_text` has it, spell a
/// pattern that these values meet; it binds nothing.
pub fn values_are_spelled()
    ensures { (admitted : Admitted) (table : List Entry) (types : List TyRef) (values : List Content) (tokens : List Token) → admitted.names ≡ false → IsTrue (is_table table)
        → SayValues table types values tokens → (steps : List Step) × (spelled admitted table types tokens ≡ Some steps) × AreMetBy values steps }
{}
