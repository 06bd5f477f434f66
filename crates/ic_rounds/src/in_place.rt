ghost use Rattle.std.specs.Prelude.{◌≡◌, ◌+◌, ◌-◌, ◌<◌, ◌≤◌, ◌^◌, length, IfOk, OnOk, IfSome, vec_len};
ghost use Rattle.ic_rounds.specs.Dealing.{slots_of, AreFirsts};
ghost use Rattle.ic_rounds.specs.Slots.{stored_of, AreReady, AreCanisters};
ghost use Rattle.ic_rounds.specs.InPlace.{IsNext, HasGone, after_firsts};

use crate::permit::Permit;
use ic_base::NoMemory;
use ic_deliver::deliver;
use ic_held::Held;
use ic_outside::Gate;
use ic_principal::Principal;
use ic_state::{BoundedEnv, Parts};
use std::alloc::Global;
use std::collections::VecDeque;

// Its canister handles the first message for which worker 0 passed the gate, and what it sends goes on. Gives the
// number of the next one.
fn deliver_first(
    alloc: Global,
    parts: &mut Parts,
    key: &Principal,
    message: Held,
    env: BoundedEnv,
    permit: Permit,
) -> Result<u32, NoMemory>
    requires next { IsNext env parts.old key.now message }
    requires alone { permit.worker ≡ 0 }
    requires few { permit.number < 64 }
    requires keep { AreCanisters parts.old }
    ensures handled { OnOk result (HasGone env parts.old key.now message parts.new) }
    ensures keep { OnOk result (AreCanisters parts.new) }
    ensures number { IfOk result (λ number. number ≡ permit.number + 1) }
{
    deliver(alloc, parts, key, message.take(), env)?;
    Ok(permit.number() + 1)
}

/// Handles the first messages to canisters one after another, each canister in its place. Before each
/// message worker 0 passes the gate, with the message's place among them.
pub fn handle_in_place<G: Gate>(
    alloc: Global,
    parts: Parts,
    firsts: Vec<(Principal, Held)>,
    env: BoundedEnv,
    gate: &G,
) -> Result<Parts, NoMemory>
    requires few { vec_len firsts ≤ 64 }
    requires firsts { AreFirsts parts.canisters.entries firsts.items }
    requires ready { AreReady env (stored_of parts) (slots_of parts.canisters.entries firsts.items) }
    requires keep { AreCanisters parts }
    ensures stored { IfOk result (λ p. stored_of p ≡ after_firsts env parts firsts.items) }
    ensures keep { IfOk result AreCanisters }
{
    let mut parts = parts;
    let mut firsts = VecDeque::from_vec(firsts);
    let mut number = 0;
    while let Some((key, message)) = firsts.pop_front() {
        let permit = Permit::pass(gate, 0, number);
        number = deliver_first(alloc, &mut parts, &key, message, env, permit)?;
    }
    Ok(parts)
}
