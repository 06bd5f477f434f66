ghost use Rattle.std.specs.Prelude.{◌≡◌, ◌+◌, ◌-◌, ◌<◌, ◌≤◌, ◌^◌, [], ◌∷◌, ◌++◌, length, Some, None, find, OnOk, OnErr, IfOk};
ghost use Rattle.std.specs.Option.{IsSome, IsSomeAnd};
ghost use Rattle.std.specs.List.{position};
ghost use Rattle.ic_behaviour.specs.Executing.{is_own, change};
ghost use Rattle.ic_behaviour.specs.State.{id_of};
ghost use Rattle.ic_behaviour.specs.Items.{item_of, cycles_in};
ghost use Rattle.ic_behaviour.specs.Local.{context_of, one_less};
ghost use Rattle.ic_state.specs.Seen.{seen};
ghost use Rattle.ic_state.specs.IsCanister.{IsCanister, cycles_of};
ghost use Rattle.ic_calls.specs.Received.{IsExpected, IsAdmitted, with_call, with_response, runs_callback};

use crate::contexts::{context_at, count, find_context, open_context, put};
use ic_base::NoMemory;
use ic_principal::Principal;
use ic_state::{CallId, Canister, Context, Message, Origin};

/// Makes the context of a call, with the call's cycles. Gives its place.
pub fn add_context(
    canister: &mut Canister,
    origin: &Origin,
    sender: &Principal,
    cycles: u128,
) -> Result<usize, NoMemory>
    requires keeps { IsCanister canister.old }
    requires fresh { find (is_own (id_of origin.now)) canister.old.contexts ≡ None }
    requires code { IsSome canister.old.code }
    requires room { cycles_of canister.old + cycles ≤ 2 ^ 127 - 1 }
    ensures made { OnOk result (canister.new ≡ record canister.old { contexts = canister.old.contexts ++ context_of origin.now sender.now cycles ∷ [] }) }
    ensures place { IfOk result (λ place. position (is_own (id_of origin.now)) canister.new.contexts ≡ Some place) }
    ensures same { OnErr result (canister.new ≡ canister.old) }
    ensures keeps { IsCanister canister.new }
{
    let place = count(&canister.contexts);
    open_context(&mut canister.contexts, origin, sender, cycles)?;
    Ok(place)
}

/// Makes the call context of a call, with the call's cycles (IC Interface Specification, "Call
/// context creation"). This is for those who have the call as a message, as tests do: `ic_exec` takes
/// a call apart and uses `add_context`.
pub fn take_call(canister: &mut Canister, call: &Message) -> Result<(), NoMemory>
    requires keeps { IsCanister canister.old }
    requires expected { IsExpected (seen canister.old) call.now }
    requires admitted { IsAdmitted (seen canister.old) call.now }
    requires room { cycles_of canister.old + cycles_in (item_of call.now) ≤ 2 ^ 127 - 1 }
    ensures taken { OnOk result (seen canister.new ≡ with_call call.now (seen canister.old)) }
    ensures same { OnErr result (canister.new ≡ canister.old) }
    ensures keeps { IsCanister canister.new }
{
    let Message::Call {
        origin,
        sender,
        cycles,
        ..
    } = call
    else {
        return Ok(());
    };
    add_context(canister, origin, sender, *cycles)?;
    Ok(())
}

/// The refund of an answer goes to the balance, and one call less has no answer. Gives the place of
/// the context in which the call was made.
pub fn take_refund(canister: &mut Canister, own: &CallId, refund: u128) -> usize
    requires keeps { IsCanister canister.old }
    requires expected { IsSomeAnd (find (is_own own.now) canister.old.contexts) (λ x. 0 < x.outstanding) }
    requires room { cycles_of canister.old + refund ≤ 2 ^ 127 - 1 }
    ensures taken { canister.new ≡ record canister.old {
      balance = canister.old.balance + refund;
      contexts = change (is_own own.now) one_less canister.old.contexts;
      outstanding = canister.old.outstanding - 1;
    } }
    ensures place { position (is_own own.now) canister.new.contexts ≡ Some result }
    ensures within { result < length canister.new.contexts }
    ensures keeps { IsCanister canister.new }
{
    let Some(place) = find_context(&canister.contexts, own) else {
        unreachable!();
    };
    let context = context_at(&canister.contexts, place);
    let lessened = Context {
        outstanding: context.outstanding - 1,
        ..context
    };
    put(&mut canister.contexts, place, lessened);
    canister.balance += refund;
    canister.outstanding -= 1;
    place
}

/// The refund of an answer goes to the balance, and one call less has no answer (IC Interface
/// Specification, "Callback invocation"). Says whether a callback runs: not where the context was
/// deleted. This is for those who have the answer as a message: `ic_exec` takes an answer apart and
/// uses `take_refund`.
pub fn take_response(canister: &mut Canister, answer: &Message) -> bool
    requires keeps { IsCanister canister.old }
    requires expected { IsExpected (seen canister.old) answer.now }
    requires room { cycles_of canister.old + cycles_in (item_of answer.now) ≤ 2 ^ 127 - 1 }
    ensures taken { seen canister.new ≡ with_response answer.now (seen canister.old) }
    ensures runs { result ≡ runs_callback (seen canister.old) answer.now }
    ensures keeps { IsCanister canister.new }
{
    let Message::Answer { origin, refund, .. } = answer else {
        return false;
    };
    let Origin::Canister { context, .. } = origin else {
        return false;
    };
    let place = take_refund(canister, context, *refund);
    !context_at(&canister.contexts, place).deleted
}
