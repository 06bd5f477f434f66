//! What holds of ways through tests: each function does nothing, and its contract is the law.

ghost use Rattle.std.specs.Prelude.{◌≡◌, ℕ, List};
ghost use Rattle.ic_behaviour.specs.Runs.{Act, IsAnyRun};
ghost use Rattle.ic_behaviour.specs.State.{State};
ghost use Rattle.ic_behaviour.specs.Submitted.{empty};
ghost use Rattle.ct_check.specs.declared.checked.CheckedStep.{CheckedStep};
ghost use Rattle.ct_outcomes.specs.declared.named.Named.{Named};
ghost use Rattle.ct_run.specs.Called.{after_acts, rules_of};
ghost use Rattle.ct_run.specs.Statements.{Setting};
ghost use Rattle.ct_orders.specs.Ways.{Comes};

/// What happens on a way through a test is a run of any order, and the way comes to the state after it. So what is
/// known of every run holds of tests with interleaves: no call has two places, and cycles are conserved.
pub fn ways_are_runs()
    ensures { (setting : Setting) (steps : List CheckedStep) (s : State) (names : List Named) (left : List CheckedStep) (order : List ℕ)
        → Comes setting steps s names left order
        → (acts : List Act) × IsAnyRun (rules_of setting.charge) acts × (s ≡ after_acts setting.charge empty acts) }
{}
