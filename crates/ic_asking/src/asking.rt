ghost use Rattle.std.specs.Prelude.{◌≡◌, List, IfOk};
ghost use Rattle.ic_behaviour.specs.declared.call.Message.{Message};
ghost use Rattle.ic_behaviour.specs.Entry.{enters_by};
ghost use Rattle.ic_api.specs.System.{system_api};
ghost use Rattle.ic_entry.specs.Inspection.{is_accepted};
ghost use Rattle.ic_entry.specs.Query.{query_response};
ghost use Rattle.ic_state.specs.IsCanister.{IsCanister};
ghost use Rattle.ic_state.specs.IsWorld.{IsWorld};
ghost use Rattle.ic_state.specs.Seen.{seen, state_of};
ghost use Rattle.ic_asking.specs.Asking.{accepts_now, answer_now};
ghost use Rattle.ic_asking.specs.Beside.{with_messages};

use ic_base::NoMemory;
use ic_calls::no_canister;
use ic_entry::{inspect, inspects, query};
use ic_principal::{Bytes, Principal};
use ic_script::Ask;
use ic_state::{CanisterPlace, Charge, Env, Parts, Response};
use std::alloc::Global;

/// Whether the callee accepts the call. All stays as it is, also where memory runs out.
pub fn accepts_now(
    alloc: Global,
    charge: Charge,
    parts: &mut Parts,
    ask: &Ask,
) -> Result<bool, NoMemory>
    requires keeps { IsWorld parts.old }
    ensures accepted { IfOk result (λ b. b ≡ accepts_now charge.limit charge.price (state_of parts.old) ask.now) }
    ensures same { state_of parts.new ≡ state_of parts.old }
    ensures keeps { IsWorld parts.new }
{
    accepts_beside(alloc, charge, parts, ask)
}

/// Whether the callee accepts the call, in the world that the parts are with the messages that are under way, which
/// are elsewhere. All stays as it is, also where memory runs out.
#[tactic(auto, unfolding(crate::specs::Asking::accepts_now))]
pub fn accepts_beside(
    alloc: Global,
    charge: Charge,
    parts: &mut Parts,
    ask: &Ask,
) -> Result<bool, NoMemory>
    requires keeps { (messages : List Message) × IsWorld (with_messages parts.old messages) }
    ensures accepted { IfOk result (λ b. (messages : List Message) → IsWorld (with_messages parts.old messages)
        → b ≡ accepts_now charge.limit charge.price (state_of (with_messages parts.old messages)) ask.now) }
    ensures same { (messages : List Message) → state_of (with_messages parts.new messages) ≡ state_of (with_messages parts.old messages) }
    ensures keeps { (messages : List Message) → IsWorld (with_messages parts.old messages) → IsWorld (with_messages parts.new messages) }
    ensures messages { parts.new.messages ≡ parts.old.messages }
{
    let env = Env {
        time: parts.time,
        limit: charge.limit,
        price: charge.price,
    };
    match parts.canisters.get_mut(&ask.callee) {
        Some(place) => accepts(alloc, place, ask, env),
        None => Ok(true),
    }
}

// The argument is copied for a canister that looks at calls, and for no other.
fn accepts(alloc: Global, place: &mut CanisterPlace, ask: &Ask, env: Env) -> Result<bool, NoMemory>
    requires { IsCanister place.old }
    ensures accepted { IfOk result (λ b. b ≡ is_accepted (enters_by system_api) env (seen place.old) ask.now.sender ask.now.method ask.now.arg) }
    ensures same { place.new ≡ place.old }
{
    if !inspects(place.get()) {
        return Ok(true);
    }
    let arg = Bytes {
        items: Vec::from_slice(alloc, ask.arg.items.as_slice())?,
    };
    inspect(
        alloc,
        place.get_mut(),
        ask.sender,
        &ask.method.items,
        arg,
        env,
    )
}

/// What the canister that is asked answers. All stays as it is, also where memory runs out.
pub fn answer_now(
    alloc: Global,
    charge: Charge,
    parts: &mut Parts,
    ask: Ask,
) -> Result<Response, NoMemory>
    requires keeps { IsWorld parts.old }
    ensures response { IfOk result (λ r. r ≡ answer_now charge.limit charge.price (state_of parts.old) ask) }
    ensures same { state_of parts.new ≡ state_of parts.old }
    ensures keeps { IsWorld parts.new }
{
    answer_beside(alloc, charge, parts, ask)
}

/// What the canister that is asked answers, in the world that the parts are with the messages that are under way,
/// which are elsewhere. All stays as it is, also where memory runs out.
#[tactic(auto, unfolding(crate::specs::Asking::answer_now))]
pub fn answer_beside(
    alloc: Global,
    charge: Charge,
    parts: &mut Parts,
    ask: Ask,
) -> Result<Response, NoMemory>
    requires keeps { (messages : List Message) × IsWorld (with_messages parts.old messages) }
    ensures response { IfOk result (λ r. (messages : List Message) → IsWorld (with_messages parts.old messages)
        → r ≡ answer_now charge.limit charge.price (state_of (with_messages parts.old messages)) ask) }
    ensures same { (messages : List Message) → state_of (with_messages parts.new messages) ≡ state_of (with_messages parts.old messages) }
    ensures keeps { (messages : List Message) → IsWorld (with_messages parts.old messages) → IsWorld (with_messages parts.new messages) }
    ensures messages { parts.new.messages ≡ parts.old.messages }
{
    let env = Env {
        time: parts.time,
        limit: charge.limit,
        price: charge.price,
    };
    let Ask {
        sender,
        callee,
        method,
        arg,
    } = ask;
    match parts.canisters.get_mut(&callee) {
        Some(place) => ask_in_place(alloc, place, sender, &method.items, arg, env),
        None => no_canister(alloc, &callee),
    }
}

// Asks the canister in its place, which stays as it is.
fn ask_in_place(
    alloc: Global,
    place: &mut CanisterPlace,
    sender: Principal,
    method: &str,
    arg: Bytes,
    env: Env,
) -> Result<Response, NoMemory>
    requires { IsCanister place.old }
    ensures response { IfOk result (λ r. r ≡ query_response (enters_by system_api) env (seen place.old) sender method.now arg) }
    ensures same { place.new ≡ place.old }
{
    query(alloc, place.get_mut(), sender, method, arg, env)
}
