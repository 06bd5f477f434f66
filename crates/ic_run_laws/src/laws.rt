ghost use Rattle.std.specs.Prelude.{◌≡◌, ℕ, List, true, false, Some, slice_get};
ghost use Rattle.std.specs.Option.{is_some};
ghost use Rattle.std.specs.Map.{lookup};
ghost use Rattle.ic_behaviour.specs.declared.call.Message.{Message as AMessage};
ghost use Rattle.ic_behaviour.specs.declared.env.Env.{Env as AnEnv};
ghost use Rattle.ic_behaviour.specs.State.{at, callee_of, State, Canister};
ghost use Rattle.ic_behaviour.specs.Items.{Drained};
ghost use Rattle.ic_behaviour.specs.Sound.{Sound};
ghost use Rattle.ic_behaviour.specs.Counted.{CountedCanister, counted, dropped};
ghost use Rattle.ic_behaviour.specs.Outcomes.{Enters};
ghost use Rattle.ic_behaviour.specs.Local.{local};
ghost use Rattle.ic_behaviour.specs.Deliver.{Outside, as_absent, deliver, env_at};
ghost use Rattle.ic_run_laws.specs.EntryKeeps.{EntriesKeep};
ghost use Rattle.ic_run_laws.specs.Advances.{ends, Advances, OutsideKeeps};
ghost use Rattle.ic_run_laws.specs.TrapKeeps.{TrapKeeps};
ghost use Rattle.ic_run_laws.specs.AllDone.{AllDone};

/// The delivery of any message, whichever it is, keeps a state sound: no call is lost or answered
/// twice, and cycles are neither made nor lost.
pub fn delivery_keeps_sound()
    ensures sound { (enters : Enters) (outside : Outside) (limit price : ℕ) (s : State) (place : ℕ)
        → EntriesKeep enters → OutsideKeeps outside → Sound s
        → Sound (deliver enters outside limit price s place) }
    // the calls that were made stay in their places, but for one whose answer is delivered
    ensures advances { (enters : Enters) (outside : Outside) (limit price : ℕ) (s : State)
        (place : ℕ) (m : AMessage)
        → EntriesKeep enters → OutsideKeeps outside → Sound s → slice_get s.messages place ≡ Some m
        → Advances s (deliver enters outside limit price s place) (callee_of m) (ends m) }
{}

/// The numbers of calls that have no answer yet are kept by the canisters themselves.
pub fn delivery_keeps_counts()
    // those of another canister stay as they were,
    ensures others { (enters : Enters) (outside : Outside) (limit price : ℕ) (s : State)
        (place : ℕ) (m : AMessage) (key : List ℕ) (c : Canister)
        → EntriesKeep enters → OutsideKeeps outside → Sound s → slice_get s.messages place ≡ Some m
        → at (callee_of m) key ≡ false
        → counted (deliver enters outside limit price s place) key c ≡ counted s key c }
    // and the canister that handled the message has its own right.
    ensures own { (enters : Enters) (outside : Outside) (limit price : ℕ) (s : State)
        (place : ℕ) (m : AMessage) (before : Canister) (after : CountedCanister)
        → EntriesKeep enters → OutsideKeeps outside → Sound s → slice_get s.messages place ≡ Some m
        → lookup (at (callee_of m)) s.canisters ≡ Some before
        → after ≡ (local enters (env_at s.time limit price) (counted s (callee_of m) before) m).canister
        → counted (deliver enters outside limit price s place) (callee_of m) (dropped after) ≡ after }
    ensures stands { (enters : Enters) (outside : Outside) (limit price : ℕ) (s : State)
        (place : ℕ) (m : AMessage) (before : Canister) (after : CountedCanister)
        → slice_get s.messages place ≡ Some m
        → lookup (at (callee_of m)) s.canisters ≡ Some before
        → after ≡ (local enters (env_at s.time limit price) (counted s (callee_of m) before) m).canister
        → lookup (at (callee_of m)) (deliver enters outside limit price s place).canisters
        ≡ Some (dropped after) }
{}

/// Whatever code does, a message that traps leaves its canister as it was, but for the price, the
/// store that a cleanup returned, and the contexts that close.
pub fn trap_keeps()
    ensures kept { (enters : Enters) (env : AnEnv) (c : CountedCanister) (m : AMessage)
        → is_some (local enters env c m).trapped ≡ true → TrapKeeps enters env c m (local enters env c m) }
{}

/// Where no message is under way and no call waits for a canister to stop, no context is left, and
/// every request is answered.
pub fn drained_is_done()
    ensures done { (s : State) → Sound s → Drained s → AllDone s }
{}

/// As long as there is no management canister, a call to it is answered as one to no canister, which
/// keeps what is asked of it.
pub fn absent_keeps()
    ensures kept { OutsideKeeps as_absent }
{}
