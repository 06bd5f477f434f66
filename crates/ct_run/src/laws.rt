//! What holds of tests: each function does nothing, and its contract is the law.

ghost use Rattle.std.specs.Prelude.{◌≡◌, ℕ, List, take};
ghost use Rattle.ic_behaviour.specs.Runs.{Act, IsRun};
ghost use Rattle.ic_behaviour.specs.State.{State};
ghost use Rattle.ic_behaviour.specs.Submitted.{empty};
ghost use Rattle.ct_check.specs.declared.checked.CheckedKind.{CheckedKind as Kind};
ghost use Rattle.ct_outcomes.specs.declared.came.Came.{Came};
ghost use Rattle.ct_outcomes.specs.declared.named.Named.{Named};
ghost use Rattle.ct_run.specs.Called.{after_acts, rules_of};
ghost use Rattle.ct_run.specs.Statements.{IsMet, IsUnmet, Setting, first_names};
ghost use Rattle.ct_run.specs.Runs.{Passes, Fails, Runs};

use ct_outcomes::laws::one_meeting;

/// What the statements of a test do, one after another, is a run of deliveries, calls of users and times, and the test comes
/// to the state after it. So what is known of every run holds of tests.
pub fn tests_are_runs()
    ensures { (setting : Setting) (statements : List Kind) (acts : List Act) (end : State) (names : List Named)
        → Runs setting empty first_names statements acts end names
        → IsRun (rules_of setting.charge) acts × (end ≡ after_acts setting.charge empty acts) }
{}

/// Where a test fails, the statements before that place are met.
pub fn what_comes_before_is_met()
    ensures { (setting : Setting) (statements : List Kind) (place : ℕ) (came : Came) (names : List Named)
        → Fails setting statements place came names
        → (acts : List Act) × (end : State) × Runs setting empty first_names (take place statements) acts end names }
{}

/// A statement that is met does one thing and binds the same names, and is not unmet.
pub fn one_step()
    ensures once { (setting : Setting) (s : State) (names : List Named) (statement : Kind) (acts others : List Act) (bound more : List Named)
        → IsMet setting s names statement acts bound → IsMet setting s names statement others more → (acts ≡ others) × (bound ≡ more) }
    ensures not_unmet { (setting : Setting) (s : State) (names : List Named) (statement : Kind) (acts : List Act) (bound : List Named) (came : Came)
        → IsMet setting s names statement acts bound → IsUnmet setting s names statement came → ⊥ }
{
    one_meeting();
}

/// No test both passes and fails.
pub fn one_verdict()
    ensures { (setting : Setting) (statements : List Kind) (place : ℕ) (came : Came) (names : List Named)
        → Passes setting statements → Fails setting statements place came names → ⊥ }
{
    one_meeting();
}

/// A test fails at one statement, for one reason.
pub fn one_failure()
    ensures { (setting : Setting) (statements : List Kind) (place other : ℕ) (came instead : Came) (names others : List Named)
        → Fails setting statements place came names → Fails setting statements other instead others
        → (place ≡ other) × (came ≡ instead) × (names ≡ others) }
{
    one_meeting();
}
