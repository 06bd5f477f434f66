ghost use Rattle.std.specs.Prelude.{◌≡◌, ◌+◌, ◌<◌, ◌≤◌, ◌^◌, ℕ, List, length};
ghost use Rattle.ic_behaviour.specs.State.{State, Canister};
ghost use Rattle.ic_behaviour.specs.Sound.{Sound};
ghost use Rattle.ic_behaviour.specs.Tallied.{Tallied};
ghost use Rattle.ic_behaviour.specs.Counted.{counted};
ghost use Rattle.ic_behaviour.specs.Submitted.{empty, submitted, timed, added, IsNew, HasRoom};

/// What every state keeps can be said in totals of weights. There the contexts have ranks, and where
/// they have ranks they can be listed.
pub fn sound_by_totals()
    ensures totals { (s : State) → Sound s → Tallied s }
    ensures sound { (s : State) → Tallied s → Sound s }
{}

/// The empty state is sound, and stays so when users call, time goes on and canisters are added.
pub fn changes_keep_sound()
    ensures empty { Sound empty }
    ensures submitted { (s : State) (sender callee method arg : List ℕ) → Sound s
        → length s.requests < 2 ^ 20 → Sound (submitted s sender callee method arg) }
    ensures timed { (s : State) (time : ℕ) → Sound s → s.time ≤ time → time ≤ 9223372036854775807
        → Sound (timed s time) }
    ensures added { (s : State) (c : Canister) → Sound s → IsNew s.next_canister c
        → HasRoom s c.balance → Sound (added s c) }
{}

/// They change none of the numbers of calls that have no answer yet.
pub fn changes_keep_counts()
    ensures submitted { (s : State) (sender callee method arg : List ℕ) → Sound s
        → length s.requests < 2 ^ 20 → (key : List ℕ) (c : Canister)
        → counted (submitted s sender callee method arg) key c ≡ counted s key c }
    ensures timed { (s : State) (time : ℕ) (key : List ℕ) (c : Canister)
        → counted (timed s time) key c ≡ counted s key c }
    ensures added { (s : State) (c : Canister) → Sound s → IsNew s.next_canister c
        → HasRoom s c.balance → (key : List ℕ) (other : Canister)
        → counted (added s c) key other ≡ counted s key other }
{}
