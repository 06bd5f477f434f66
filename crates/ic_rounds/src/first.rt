ghost use Rattle.std.specs.Prelude.{◌≡◌, ◌<◌, ◌≤◌, ◌^◌, length, IfOk};
ghost use Rattle.ic_behaviour.specs.Deliver.{Outside};
ghost use Rattle.ic_behaviour.specs.Steps.{along};
ghost use Rattle.ic_behaviour.specs.Round.{first_phase};
ghost use Rattle.ic_run_laws.specs.System.{system_rules};

use crate::crew::{Crew, MOST_WORKERS};
use crate::first_messages::handle_firsts;
use crate::taken::taken_out;
use ic_base::NoMemory;
use ic_outside::Gate;
use ic_state::{Charge, MOST_INSTRUCTIONS, Messages, World};
use std::alloc::Global;
use std::mem::replace;
use std::thread::Threads;

/// The first phase of a round: in rising id, each canister that had a message at the round's start
/// handles the first one. Gives the number of messages that were handled. Up to `workers` workers share
/// them out by tickets, and each passes the gate, with its own number and the slot's, before each message
/// that it handles. `limit` is the most instructions that one execution may use, and `price` the cycles
/// that an instruction costs. Whatever delivers calls to the management canister, none is delivered here.
pub fn canister_turns<R: Threads + Sync, G: Gate + Sync>(
    alloc: Global,
    rt: &R,
    world: World,
    workers: u32,
    limit: u64,
    price: u64,
    gate: &G,
) -> Result<(World, u64), NoMemory>
    requires workers { (0 < workers) × (workers ≤ MOST_WORKERS) }
    requires limit { limit ≤ MOST_INSTRUCTIONS }
    ensures state { IfOk result (λ r. (outside : Outside)
        → r.0 ≡ along (system_rules outside limit price) world
        (first_phase (system_rules outside limit price) world)) }
    ensures handled { IfOk result (λ r. (outside : Outside)
        → r.1 ≡ length (first_phase (system_rules outside limit price) world)) }
    ensures few { IfOk result (λ r. r.1 < 2 ^ 63) }
{
    let mut parts = world.open();
    let none = Messages {
        items: Vec::new(alloc),
    };
    let messages = replace(&mut parts.messages, none);
    let (firsts, left) = taken_out(alloc, &parts.canisters, messages)?.open(alloc)?;
    parts.messages = left;
    let handled = firsts.len() as u64;
    let crew = Crew { rt, workers, gate };
    let env = Charge { limit, price }.at(parts.time);
    let parts = handle_firsts(alloc, parts, firsts, &crew, env)?;
    Ok((World::seal(parts), handled))
}
