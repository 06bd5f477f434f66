ghost use Rattle.std.specs.Prelude.{◌≡◌, ◌≤◌, IfOk, vec_len};
ghost use Rattle.ic_rounds.specs.Dealing.{slots_of, AreFirsts};
ghost use Rattle.ic_rounds.specs.Slots.{stored_of, AreReady, AreCanisters};
ghost use Rattle.ic_rounds.specs.InPlace.{after_firsts};

use crate::crew::Crew;
use crate::dealt::deal_out;
use crate::in_place::handle_in_place;
use crate::putting_back::handle_and_put_back;
use ic_base::NoMemory;
use ic_held::Held;
use ic_outside::Gate;
use ic_principal::Principal;
use ic_state::{BoundedEnv, Parts};
use std::alloc::Global;
use std::collections::BTreeMap;
use std::mem::replace;
use std::thread::Threads;

// Several workers have the canisters in slots, and these are put back in the order of the slots.
fn handle_in_slots<R: Threads + Sync, G: Gate + Sync>(
    alloc: Global,
    parts: Parts,
    firsts: Vec<(Principal, Held)>,
    crew: &Crew<'_, R, G>,
    env: BoundedEnv,
) -> Result<Parts, NoMemory>
    requires few { vec_len firsts ≤ 64 }
    requires firsts { AreFirsts parts.canisters.entries firsts.items }
    requires ready { AreReady env (stored_of parts) (slots_of parts.canisters.entries firsts.items) }
    requires keep { AreCanisters parts }
    ensures stored { IfOk result (λ p. stored_of p ≡ after_firsts env parts firsts.items) }
    ensures keep { IfOk result AreCanisters }
{
    let mut parts = parts;
    let canisters = replace(&mut parts.canisters, BTreeMap::new(alloc));
    let (canisters, slots) = deal_out(alloc, canisters, firsts)?.open();
    parts.canisters = canisters;
    handle_and_put_back(alloc, parts, slots, crew, env)
}

/// Handles the first messages to canisters, in rising order of these, and sends what they send in that
/// order. One worker, and so one message, needs no slots. Several workers, as many as there are messages at most,
/// share them out by tickets. Before each message its worker passes the gate, with its own number, from 0, and the
/// message's place among them.
pub fn handle_firsts<R: Threads + Sync, G: Gate + Sync>(
    alloc: Global,
    parts: Parts,
    firsts: Vec<(Principal, Held)>,
    crew: &Crew<'_, R, G>,
    env: BoundedEnv,
) -> Result<Parts, NoMemory>
    requires few { vec_len firsts ≤ 64 }
    requires firsts { AreFirsts parts.canisters.entries firsts.items }
    requires ready { AreReady env (stored_of parts) (slots_of parts.canisters.entries firsts.items) }
    requires keep { AreCanisters parts }
    ensures stored { IfOk result (λ p. stored_of p ≡ after_firsts env parts firsts.items) }
    ensures keep { IfOk result AreCanisters }
{
    if crew.workers == 1 || firsts.len() <= 1 {
        handle_in_place(alloc, parts, firsts, env, crew.gate)
    } else {
        handle_in_slots(alloc, parts, firsts, crew, env)
    }
}
