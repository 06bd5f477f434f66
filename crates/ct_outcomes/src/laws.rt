//! What holds of arguments and outcomes: each function does nothing, and its contract is the law.

ghost use Rattle.std.specs.Prelude.{◌≡◌, List, ℕ, Option};
ghost use Rattle.ct_check.specs.Filling.{Filling};
ghost use Rattle.ct_check.specs.declared.checked.CheckedOutcome.{CheckedOutcome};
ghost use Rattle.ct_outcomes.specs.declared.came.Came.{Came};
ghost use Rattle.ct_outcomes.specs.declared.named.Named.{Named};
ghost use Rattle.ct_outcomes.specs.Types.{Types};
ghost use Rattle.ct_outcomes.specs.Arguments.{IsArgument};
ghost use Rattle.ct_outcomes.specs.Meets.{MeetsOne};

use cd_coerce::laws::one_answer;

/// What is filled in says one argument at most.
pub fn one_argument()
    ensures { (types : Types) (names : List Named) (filling : Option Filling) (arg other : List ℕ) → IsArgument types names filling arg → IsArgument types names filling other → arg ≡ other }
{}

/// Outcomes that are met bind one thing at most.
pub fn one_meeting()
    ensures { (types : Types) (names : List Named) (expected : List CheckedOutcome) (came : Came) (bound other : List Named) → MeetsOne types names expected came bound → MeetsOne types names expected came other → bound ≡ other }
{
    one_answer();
}
