ghost use Rattle.std.specs.Prelude.{◌≡◌, ℕ, ◌+◌, List, [], ◌∷◌, ◌++◌};
ghost use Rattle.ic_behaviour.specs.declared.call.CallId.{CallId as AnId};
ghost use Rattle.ic_behaviour.specs.Items.{Drained, places, held};
ghost use Rattle.ic_behaviour.specs.Sound.{Sound};
ghost use Rattle.ic_run_laws.specs.AllDone.{AllDone};
ghost use Rattle.ic_behaviour.specs.Steps.{Rules};
ghost use Rattle.ic_behaviour.specs.Runs.{Act, Delivers, IsAnyRun, last_state};
ghost use Rattle.ic_run_laws.specs.RulesKeep.{RulesKeep, AnswersCall};

/// The laws of every run, in whatever order its messages come. A run may end anywhere, so they hold
/// of each state that it goes through.
pub fn every_run()
    ensures begun { (rules : Rules) (front back : List Act)
        → IsAnyRun rules (front ++ back) → IsAnyRun rules front }
    ensures sound { (rules : Rules) (acts : List Act) → RulesKeep rules → IsAnyRun rules acts
        → Sound (last_state rules acts) }
    ensures cycles { (rules : Rules) (acts : List Act) → RulesKeep rules → IsAnyRun rules acts
        → (last_state rules acts).created ≡ held (last_state rules acts) + (last_state rules acts).burned }
    // where no message is left and no call waits for a canister to stop
    ensures done { (rules : Rules) (acts : List Act) → RulesKeep rules → IsAnyRun rules acts
        → Drained (last_state rules acts) → AllDone (last_state rules acts) }
{}

/// The laws of each call of a run: the states in which it has a place follow one another, and for the
/// call of a canister they end with the delivery of its answer and with nothing else.
pub fn every_call_in_a_run()
    ensures consecutive { (rules : Rules) (front middle back : List Act) (id : AnId)
        → RulesKeep rules → IsAnyRun rules (front ++ (middle ++ back))
        → places (last_state rules front) id ≡ 1
        → places (last_state rules (front ++ (middle ++ back))) id ≡ 1
        → places (last_state rules (front ++ middle)) id ≡ 1 }
    ensures ends { (rules : Rules) (acts : List Act) (act : Act) (id : AnId)
        → RulesKeep rules → IsAnyRun rules (acts ++ act ∷ [])
        → places (last_state rules acts) id ≡ 1
        → places (last_state rules (acts ++ act ∷ [])) id ≡ 0
        → (place : ℕ) × (act ≡ Delivers place) × AnswersCall (last_state rules acts) place id }
    // whatever comes later
    ensures answered_once { (rules : Rules) (front back : List Act) (place : ℕ) (id : AnId)
        → RulesKeep rules → IsAnyRun rules (front ++ Delivers place ∷ back)
        → AnswersCall (last_state rules front) place id
        → (places (last_state rules front) id ≡ 1)
        × (places (last_state rules (front ++ Delivers place ∷ back)) id ≡ 0) }
{}
