ghost use Rattle.std.specs.Prelude.{◌≡◌, ℕ, false};
ghost use Rattle.ic_behaviour.specs.State.{State};
ghost use Rattle.ic_behaviour.specs.Steps.{Rules, step};
ghost use Rattle.ic_keep.specs.IsKept.{codes_in};
ghost use Rattle.ic_schedule.specs.Delivery.{is_managed};

/// A delivery keeps the code of each canister, unless it is a call to the management canister, which may install
/// other code. It is a law, and does nothing when it is called.
pub fn deliveries_keep_codes()
    ensures { (rules : Rules) (s : State) (place : ℕ) → is_managed s place ≡ false → codes_in (step rules s place) ≡ codes_in s }
{}
