ghost use Rattle.std.specs.Prelude.{◌≡◌, ℕ, List, [], ◌∷◌, true, take, cond};
ghost use Rattle.ic_behaviour.specs.State.{State};
ghost use Rattle.ic_behaviour.specs.Deliver.{Outside};
ghost use Rattle.ic_behaviour.specs.Steps.{IsEligible, along, AreEligible};
ghost use Rattle.ic_run_laws.specs.System.{system_rules};
ghost use Rattle.ic_schedule.specs.Delivery.{IsStep};
ghost use Rattle.ic_schedule.specs.Picks.{is_eligible, Picks, picked};

use crate::manager::Manager;

/// Where calls to the management canister are carried out as rules have it, a replay is a chain of
/// steps of these rules.
pub fn picks_are_steps<M: Manager>(manager: &M)
    ensures state { (outside : Outside) (limit price : ℕ) (s : State) (picks : List ℕ) (t : State) (count : ℕ)
        → IsStep outside (M.manages manager.now) → Picks (M.manages manager.now) limit price s picks t count
        → t ≡ along (system_rules outside limit price) s (take count picks) }
    ensures eligible { (outside : Outside) (limit price : ℕ) (s : State) (picks : List ℕ) (t : State) (count : ℕ)
        → IsStep outside (M.manages manager.now) → Picks (M.manages manager.now) limit price s picks t count
        → AreEligible (system_rules outside limit price) s (take count picks) }
    // one pick
    ensures single { (outside : Outside) (limit price : ℕ) (s : State) (place : ℕ) (t : State) (count : ℕ)
        → IsStep outside (M.manages manager.now) → Picks (M.manages manager.now) limit price s (place ∷ []) t count
        → (t ≡ picked (system_rules outside limit price) s place) × (count ≡ cond (is_eligible s place) 1 0) }
    ensures yes { (s : State) (place : ℕ) → is_eligible s place ≡ true → IsEligible s place }
{
    let _manager = manager;
}
