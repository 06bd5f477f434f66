ghost use Rattle.std.specs.Prelude.{◌≡◌, ◌+◌, ◌++◌, ◌-◌, ◌<◌, ◌≤◌, ◌^◌, ℕ, List, [], length, map, slice_get, Some};
ghost use Rattle.std.specs.List.{flat_map};
ghost use Rattle.std.specs.Map.{lookup};
ghost use Rattle.wm_store.specs.Lists.{Lists};
ghost use Rattle.ic_behaviour.specs.declared.call.CallId.{CallId as AnId};
ghost use Rattle.ic_behaviour.specs.Items.{outstanding};
ghost use Rattle.ic_behaviour.specs.declared.call.Message.{Message as AMessage};
ghost use Rattle.ic_behaviour.specs.declared.call.Response.{Response as AResponse};
ghost use Rattle.ic_behaviour.specs.declared.phase.Phase.TheVariants.{Running, Stopped};
ghost use Rattle.ic_behaviour.specs.State.{at, waiting, Code, Canister, State};
ghost use Rattle.ic_behaviour.specs.Sound.{Sound};
ghost use Rattle.ic_behaviour.specs.Submitted.{added, IsNew, HasRoom};
ghost use Rattle.ic_behaviour.specs.Deliver.{without};
ghost use Rattle.ic_mgmt_laws.specs.KeepsCalls.{KeepsCalls};
ghost use Rattle.ic_behaviour.specs.Installing.{EntersAfter};
ghost use Rattle.ic_run_laws.specs.Advances.{OutsideKeeps};
ghost use Rattle.ic_mgmt_laws.specs.Manage.{handled, manage};
ghost use Rattle.ic_mgmt_laws.specs.Moves.{message_of, with_call, with_canister, granted, gone, replied, kept_by, all_answered, awaiting, running, to_waiter, to_context, emptied, shut};
ghost use Rattle.ic_behaviour.specs.declared.call.IncomingCall.{IncomingCall};

/// The moves of a call to the management canister: it is answered, or waits. Each keeps a state sound,
/// and every call in its place.
pub fn calls_keep_calls()
    ensures replied { (s : State) (place : ℕ) (call : IncomingCall) (callee : List ℕ) (response : AResponse)
        → Sound s → slice_get s.messages place ≡ Some (message_of call callee)
        → KeepsCalls s (replied call response (without s place)) }
    // its cycles go to a canister
    ensures kept { (s : State) (place : ℕ) (call : IncomingCall) (callee id : List ℕ) (c : Canister) (response : AResponse)
        → Sound s → slice_get s.messages place ≡ Some (message_of call callee) → lookup (at id) s.canisters ≡ Some c
        → KeepsCalls s (kept_by id c call response (without s place)) }
    // it waits for a canister with contexts to stop,
    ensures waits { (s : State) (place : ℕ) (call : IncomingCall) (callee id : List ℕ) (c : Canister)
        → Sound s → slice_get s.messages place ≡ Some (message_of call callee) → lookup (at id) s.canisters ≡ Some c
        → 0 < length c.contexts
        → KeepsCalls s (with_canister id (awaiting call c) (without s place)) }
    // and one without stops at once
    ensures stops { (s : State) (place : ℕ) (call : IncomingCall) (callee id : List ℕ) (c : Canister)
        → Sound s → slice_get s.messages place ≡ Some (message_of call callee) → lookup (at id) s.canisters ≡ Some c
        → c.contexts ≡ [] → c.phase ≡ Running
        → KeepsCalls s (shut (with_call call (without s place)) id (awaiting call c) (with_canister id (awaiting call c) (without s place))) }
{}

/// The moves of a canister: it is made, changed or goes. Each keeps a state sound, and every call in
/// its place.
pub fn canisters_keep_calls()
    ensures added { (s : State) (c : Canister) → Sound s → IsNew s.next_canister c → HasRoom s c.balance
        → KeepsCalls s (added s c) }
    ensures granted { (s : State) (id : List ℕ) (c : Canister) (amount : ℕ)
        → Sound s → lookup (at id) s.canisters ≡ Some c → s.created + amount ≤ 2 ^ 127 - 1
        → KeepsCalls s (granted id c amount s) }
    ensures settled { (s : State) (id : List ℕ) (c : Canister) (controllers : List (List ℕ))
        → Sound s → lookup (at id) s.canisters ≡ Some c
        → KeepsCalls s (with_canister id (record c { controllers = controllers }) s) }
    ensures coded { (s : State) (id : List ℕ) (c : Canister) (code : Code) (store : Lists) (certified : List ℕ)
        → Sound s → lookup (at id) s.canisters ≡ Some c
        → KeepsCalls s (with_canister id (record c { code = Some code; store = store; certified = certified }) s) }
    ensures gone { (s : State) (id : List ℕ) (c : Canister)
        → Sound s → lookup (at id) s.canisters ≡ Some c → c.phase ≡ Stopped
        → KeepsCalls s (gone id c s) }
{}

/// Chains of moves: the calls that wait for a canister are answered and it runs, or its contexts answer
/// and it has no code any more. Each keeps a state sound, and every call in its place.
pub fn chains_keep_calls()
    ensures restarted { (s : State) (id : List ℕ) (c : Canister) (response : AResponse)
        → Sound s → lookup (at id) s.canisters ≡ Some c
        → KeepsCalls s (with_canister id (running c) (all_answered id (map (to_waiter response) (waiting c.phase)) s)) }
    ensures emptied { (s : State) (id : List ℕ) (c : Canister) (response : AResponse)
        → Sound s → lookup (at id) s.canisters ≡ Some c
        → KeepsCalls s (with_canister id (emptied c) (all_answered id (flat_map (to_context response) c.contexts) s)) }
    // in a sound state nothing is to be closed
    ensures shut { (now s : State) (id : List ℕ) (c : Canister)
        → Sound s → lookup (at id) s.canisters ≡ Some c
        → ((key : List ℕ) (i : AnId) → outstanding now key i ≡ outstanding s key i)
        → shut now id c s ≡ s }
{}

/// Whatever code is installed and however it runs, the management canister keeps a state sound: no call
/// is lost or answered twice, cycles are neither made nor lost beside those that it creates and burns,
/// and no canister has more calls without answer or fewer.
pub fn management_keeps()
    ensures calls { (enters : EntersAfter) (limit : ℕ) (s : State) (place : ℕ) (call : IncomingCall) (callee : List ℕ)
        → Sound s → slice_get s.messages place ≡ Some (message_of call callee)
        → KeepsCalls s (manage enters limit (without s place) (message_of call callee)) }
    // so it may be in every run
    ensures outside { (enters : EntersAfter) → OutsideKeeps (manage enters) }
{}

/// The management canister looks at no message. Of the others it takes the counts alone, so that those
/// that a canister stores serve; and what it sends comes last.
pub fn management_is_apart()
    ensures counts { (enters : EntersAfter) (limit : ℕ) (now other s : State) (call : IncomingCall)
        → other.time ≡ now.time → ((key : List ℕ) (id : AnId) → outstanding other key id ≡ outstanding now key id)
        → handled enters limit other s call ≡ handled enters limit now s call }
    ensures last { (enters : EntersAfter) (limit : ℕ) (now s : State) (call : IncomingCall) (front : List AMessage)
        → handled enters limit now (record s { messages = front ++ s.messages }) call
        ≡ record (handled enters limit now s call) { messages = front ++ (handled enters limit now s call).messages } }
{}
