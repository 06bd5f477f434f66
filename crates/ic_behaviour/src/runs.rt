ghost use Rattle.std.specs.Prelude.{◌≡◌, ◌<◌, ℕ, List, [], ◌∷◌, length};
ghost use Rattle.ic_behaviour.specs.declared.call.Message.{Message};
ghost use Rattle.ic_behaviour.specs.State.{State};
ghost use Rattle.ic_behaviour.specs.Sound.{Sound};
ghost use Rattle.ic_behaviour.specs.Steps.{Rules, AreEligible};
ghost use Rattle.ic_behaviour.specs.Round.{round};
ghost use Rattle.ic_behaviour.specs.Runs.{Act, IsRun, IsAnyRun};

/// In a round each message is delivered after those of its sender to its callee, and where a message is
/// under way one is delivered.
pub fn rounds_are_steps()
    ensures eligible { (rules : Rules) (s : State) → Sound s → AreEligible rules s (round rules s) }
    ensures some { (rules : Rules) (s : State) (m : Message) (ms : List Message) → s.messages ≡ m ∷ ms
        → round rules s ≡ [] → ⊥ }
{}

/// A run is one of any order.
pub fn any_order()
    ensures { (rules : Rules) (acts : List Act) → IsRun rules acts → IsAnyRun rules acts }
{}
