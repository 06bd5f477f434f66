//! What holds of what moves ask: each function does nothing, and its contract is the law.

ghost use Rattle.std.specs.Prelude.{◌≡◌, ℕ, List};
ghost use Rattle.ct_sources.specs.Files.{Files};
ghost use Rattle.ct_check.specs.Moving.{Moving};
ghost use Rattle.ct_check.specs.declared.checked.CheckedCreation.{CheckedCreation as ACreation};
ghost use Rattle.ct_outcomes.specs.declared.named.Named.{Named};
ghost use Rattle.ct_asked.specs.declared.asked.Asked.{Asked as AnAsked};
ghost use Rattle.ct_asked.specs.Requests.{Code};
ghost use Rattle.ct_asked.specs.Asked.{IsAsked, IsCreation};

/// A move asks one thing.
pub fn one_question()
    ensures { (files : Files) (names : List Named) (moving : Moving) (asked other : AnAsked) → IsAsked files names moving asked → IsAsked files names moving other → asked ≡ other }
{}

/// One sender makes a canister, of one module and argument.
pub fn one_creation()
    ensures { (files : Files) (names : List Named) (by : ℕ) (creation : ACreation) (made other : List ℕ × Code) → IsCreation files names by creation made → IsCreation files names by creation other → made ≡ other }
{}
