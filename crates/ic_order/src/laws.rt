ghost use Rattle.std.specs.Prelude.{◌≡◌, ◌<◌, ◌≤◌, ℕ, true, false, List, [], ◌∷◌, ◌++◌, length};
ghost use Rattle.std.specs.List.{Contains};
ghost use Rattle.ic_behaviour.specs.declared.call.CallId.{CallId as AnId};
ghost use Rattle.ic_behaviour.specs.declared.call.Message.{Message as AMessage};
ghost use Rattle.ic_behaviour.specs.State.{State, Canister};
ghost use Rattle.ic_behaviour.specs.Items.{places};
ghost use Rattle.ic_behaviour.specs.Counted.{counted};
ghost use Rattle.ic_behaviour.specs.Steps.{Rules, IsEligible};
ghost use Rattle.ic_behaviour.specs.Runs.{Act, Delivers, IsRun, IsAnyRun, last_state};
ghost use Rattle.ic_behaviour.specs.Installing.{EntersAfter};
ghost use Rattle.ic_run_laws.specs.RulesKeep.{RulesKeep};
ghost use Rattle.ic_mgmt_laws.specs.Manage.{manage};
ghost use Rattle.ic_mgmt_laws.specs.Managed.{managed_rules};
ghost use Rattle.ic_order.specs.Ways.{way_of, equal_ways, MayComeNext, next_places, IsOrderedRun};
ghost use Rattle.ic_order.specs.Order.{SameWays, SameState, IsMatched, RespectsOrder};
ghost use Rattle.ic_order.specs.Sorted.{IsByWays};

/// A message that may come next is in the list, and where each call has one place each that is eligible may
/// come next. Where each message that is delivered may come next, the run is one of any order, so the laws of
/// every run hold of it.
pub fn next_messages_make_runs()
    ensures within { (s : State) (place : ℕ) → MayComeNext s place → place < length s.messages }
    ensures eligible { (s : State) (place : ℕ) → ((id : AnId) → places s id ≤ 1) → IsEligible s place
        → MayComeNext s place }
    // all of them are listed, and no others
    ensures listed { (s : State) (place : ℕ) → MayComeNext s place → Contains (next_places s.messages) place }
    ensures only { (s : State) (place : ℕ) → Contains (next_places s.messages) place → MayComeNext s place }
    ensures any { (rules : Rules) (acts : List Act) → IsOrderedRun rules acts → IsAnyRun rules acts }
    ensures run { (rules : Rules) (acts : List Act) → RulesKeep rules → IsRun rules acts
        → IsOrderedRun rules acts }
    ensures next { (rules : Rules) (acts : List Act) (place : ℕ) → IsOrderedRun rules acts
        → MayComeNext (last_state rules acts) place → IsOrderedRun rules (acts ++ Delivers place ∷ []) }
{}

/// States that differ only in the order of messages that go different ways have the same canisters, with the
/// same numbers of open calls, and are equal where no message is under way.
pub fn same_states_are_alike()
    ensures reflexive { (s : State) → SameState s s }
    ensures symmetric { (s t : State) → SameState s t → SameState t s }
    ensures transitive { (s t u : State) → SameState s t → SameState t u → SameState s u }
    ensures equal { (s t : State) → SameState s t → s.messages ≡ [] → s ≡ t }
    ensures counts { (s t : State) → SameState s t → (key : List ℕ) (c : Canister)
        → counted s key c ≡ counted t key c }
    // neighbours that go different ways may be exchanged, and of one way only equal ones
    ensures exchanged { (s : State) (front back : List AMessage) (m n : AMessage) → equal_ways (way_of m) (way_of n) ≡ false
        → SameState (record s { messages = front ++ m ∷ n ∷ back }) (record s { messages = front ++ n ∷ m ∷ back }) }
    ensures one_way { (s : State) (front back : List AMessage) (m n : AMessage) → equal_ways (way_of m) (way_of n) ≡ true
        → SameState (record s { messages = front ++ m ∷ n ∷ back }) (record s { messages = front ++ n ∷ m ∷ back })
        → m ≡ n }
{}

/// Lists of messages have the same messages of each way, in one order, exactly where they are equal once they
/// are sorted by ways.
pub fn sorted_lists_tell()
    ensures same { (ms ns sorted others : List AMessage) → IsByWays ms sorted → IsByWays ns others
        → SameWays ms ns → sorted ≡ others }
    ensures back { (ms ns sorted others : List AMessage) → IsByWays ms sorted → IsByWays ns others
        → sorted ≡ others → SameWays ms ns }
{}

/// From states that differ only in that order, deliveries of messages that may come next lead to such states.
pub fn deliveries_are_matched()
    ensures matched { (rules : Rules) (s t : State) (place : ℕ) → RespectsOrder rules.outside → SameState s t
        → MayComeNext s place → IsMatched rules s t place }
    // with calls to the management canister among the messages
    ensures managed { (limit price : ℕ) (s t : State) (place : ℕ) → SameState s t → MayComeNext s place
        → IsMatched (managed_rules limit price) s t place }
{}

/// What the management canister does with a call does not depend on the order of messages that go different
/// ways, whatever code is installed and however it runs.
pub fn management_respects_order()
    ensures { (enters : EntersAfter) → RespectsOrder (manage enters) }
{}
