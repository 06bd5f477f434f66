ghost use Rattle.std.specs.Prelude.{◌≡◌, ℕ, ◌+◌, List, [], ◌∷◌, ◌++◌};
ghost use Rattle.ic_behaviour.specs.declared.call.CallId.{CallId as AnId};
ghost use Rattle.ic_behaviour.specs.Items.{Drained, places, held};
ghost use Rattle.ic_behaviour.specs.Sound.{Sound};
ghost use Rattle.ic_behaviour.specs.Runs.{Act, Delivers, IsAnyRun, last_state};
ghost use Rattle.ic_run_laws.specs.RulesKeep.{RulesKeep, AnswersCall};
ghost use Rattle.ic_run_laws.specs.AllDone.{AllDone};
ghost use Rattle.ic_mgmt_laws.specs.Managed.{managed_rules};

/// The laws of every run, in whatever order its messages come, the calls to the management canister
/// among them, whatever the most instructions of an execution and the price of one.
pub fn every_run()
    ensures rules { (limit price : ℕ) → RulesKeep (managed_rules limit price) }
    ensures sound { (limit price : ℕ) (acts : List Act) → IsAnyRun (managed_rules limit price) acts
        → Sound (last_state (managed_rules limit price) acts) }
    // cycles held and burned are those created
    ensures cycles { (limit price : ℕ) (acts : List Act) → IsAnyRun (managed_rules limit price) acts
        → (last_state (managed_rules limit price) acts).created
        ≡ held (last_state (managed_rules limit price) acts) + (last_state (managed_rules limit price) acts).burned }
    // where no message is left and no call waits for a canister to stop, no context is left, and every
    // request is answered
    ensures done { (limit price : ℕ) (acts : List Act) → IsAnyRun (managed_rules limit price) acts
        → Drained (last_state (managed_rules limit price) acts) → AllDone (last_state (managed_rules limit price) acts) }
{}

/// The laws of each call of a run: the states in which it has a place follow one another, and for the
/// call of a canister they end with the delivery of its answer and with nothing else.
pub fn every_call_in_a_run()
    ensures consecutive { (limit price : ℕ) (front middle back : List Act) (id : AnId)
        → IsAnyRun (managed_rules limit price) (front ++ (middle ++ back))
        → places (last_state (managed_rules limit price) front) id ≡ 1
        → places (last_state (managed_rules limit price) (front ++ (middle ++ back))) id ≡ 1
        → places (last_state (managed_rules limit price) (front ++ middle)) id ≡ 1 }
    ensures ends { (limit price : ℕ) (acts : List Act) (act : Act) (id : AnId)
        → IsAnyRun (managed_rules limit price) (acts ++ act ∷ [])
        → places (last_state (managed_rules limit price) acts) id ≡ 1
        → places (last_state (managed_rules limit price) (acts ++ act ∷ [])) id ≡ 0
        → (place : ℕ) × (act ≡ Delivers place) × AnswersCall (last_state (managed_rules limit price) acts) place id }
    // whatever comes later
    ensures answered_once { (limit price : ℕ) (front back : List Act) (place : ℕ) (id : AnId)
        → IsAnyRun (managed_rules limit price) (front ++ Delivers place ∷ back)
        → AnswersCall (last_state (managed_rules limit price) front) place id
        → (places (last_state (managed_rules limit price) front) id ≡ 1)
        × (places (last_state (managed_rules limit price) (front ++ Delivers place ∷ back)) id ≡ 0) }
{}
