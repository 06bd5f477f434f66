ghost use Rattle.std.specs.Prelude.{◌≡◌};
ghost use Rattle.ic_behaviour.specs.State.{State};
ghost use Rattle.ic_order.specs.Order.{SameState};
ghost use Rattle.ic_keep.specs.Key.{key_of};
ghost use Rattle.ic_keep.specs.Kept.{KeptState, Tables, state_at};
ghost use Rattle.ic_keep.specs.IsKept.{Grows, IsKept};

/// What is kept stays, as the same state, while tables grow. It is a law, and does nothing when it is called.
pub fn growth_keeps()
    ensures { (t u : Tables) → Grows t u → (k : KeptState) → IsKept t k → IsKept u k × (state_at u k ≡ state_at t k) }
{}

/// States that are the same up to the order of messages that go different ways have one key.
pub fn same_states_have_one_key()
    ensures { (s t : State) → SameState s t → key_of s ≡ key_of t }
{}
