//! Laws of the definitions that the contracts cite.
ghost use Rattle.std.specs.Prelude.{◌≡◌, List, ℕ};
ghost use Rattle.std.specs.List.{concat};
ghost use Rattle.ic_outside.specs.Pieces.{pieces};

/// The pieces of a script, one after another, are the script: no byte is skipped and none added.
pub fn pieces_are_the_script()
    ensures { (script : List ℕ) → concat (pieces script) ≡ script }
{}
